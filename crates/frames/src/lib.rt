// A line read as a frame: its numbers by value, and where in the frame's bytes KeyUIDs and keys lie; or the refusal. Nothing here looks at a
// state. Every public function is total.
#![tactic(auto)]

ghost use Rattle.std.specs.Prelude.{◌≡◌, ◌+◌};
ghost use Rattle.cells.specs.Cells.{zeros};
ghost use Rattle.rules.specs.Numbers.{uid_most, key_size};
ghost use Rattle.frames.specs.Reading.{read_from};

mod fields;
mod kinds;

use rules::{Command, FRAME_MOST, KEY_SIZE, Namespace, Refusal, Tag, UID_MOST};

// A KeyUID and a key, as a message may bring them.
pub const BROUGHT_MOST: usize = UID_MOST + KEY_SIZE;

// A frame as it was read. A load's KeyUID lies from byte 5 on and has so many bytes; its key, clear or wrapped, lies behind it. A replace's old
// KeyUID lies from byte 5 on, the new one behind it and a length byte, the key behind that. specs/Reading.antt says what each stands for.
#[derive(Clone, Copy)]
pub enum FrameRead {
    Manage(Namespace, u8),
    Release(Namespace),
    Load(Namespace, Tag, usize),
    LoadWrapped(Namespace, Tag, usize),
    Replace(Namespace, Tag, usize, usize),
    ClearOne(Namespace, Tag),
    ClearAll(Namespace),
    Io(Command),
    SetFeatures(u32),
    GetFeatures,
    BootWrite(u8),
    Reset(u8),
    Discovery,
}

// What a load names: the slot, and how many bytes its KeyUID has.
#[derive(Clone, Copy)]
pub(crate) struct ToSlot {
    pub ns: Namespace,
    pub tag: Tag,
    pub l: usize,
}

// 07 01 first, then by the kind.
fn by_line(
    line: &[u8],
    frame: &mut [u8; FRAME_MOST],
    brought: &mut [u8; BROUGHT_MOST],
) -> Result<FrameRead, Refusal>
    ensures { record { read = result; frame = frame.new } ≡ read_from line.now frame.old }
{
    let n = digits::read_line(line, frame)?;
    kinds::front(frame, n, brought)
}

// Reads a line into the front of the frame. What a message brings goes through bytes that are lent too, and wiped: they held a key. (Here,
// behind a reference, the stores stay; in the function that has the bytes the compiler drops them.)
pub fn read(
    line: &[u8],
    frame: &mut [u8; FRAME_MOST],
    brought: &mut [u8; BROUGHT_MOST],
) -> Result<FrameRead, Refusal>
    ensures { (record { read = result; frame = frame.new } ≡ read_from line.now frame.old)
        × (brought.new ≡ zeros (uid_most + key_size)) }
{
    let read = by_line(line, frame, brought);
    cells::fill_zero(brought);
    read
}
