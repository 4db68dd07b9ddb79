// One line, on a drive that was found ready: it is read, and its frame acts or its refusal is the answer.
ghost use Rattle.std.specs.Prelude.{◌≡◌, ℕ, ◌+◌, ◌/◌, ◌≤◌, List, length, drop};
ghost use Rattle.cells.specs.Cells.{part, zeros};
ghost use Rattle.rules.specs.Numbers.{key_size, uid_most, digits_most};
ghost use Rattle.rules.specs.Aes.{schedule_words};
ghost use Rattle.rules.specs.Slots.{FitKey};
ghost use Rattle.rules.specs.Frames.{contents_at};
ghost use Rattle.rules.specs.Order.{obeys, step, load as loadRule, replace as replaceRule};
ghost use Rattle.frames.specs.Reading.{meant, Lies, read_from};
ghost use Rattle.drive.specs.Acting.{state, after, Ready, Sound, acted, replace_most};

use crate::contents::Contents;
use crate::scratch::Scratch;
use crate::{boot, io, keys, wrapped};
use aes::SCHEDULE;
use frames::FrameRead;
use rules::{Answer, Granted, KEY_SIZE, Namespace, Refusal, Registers, Tag, UID_MOST};

// The longest frame without a message.
const REPLACE_MOST: usize = 6 + UID_MOST + UID_MOST + KEY_SIZE;

// A load: its KeyUID lies from byte 5 on, the key behind it.
fn load(
    registers: &Registers,
    keys: &mut [u8],
    f: &[u8],
    ns: Namespace,
    tag: Tag,
    l: usize,
) -> Answer
    requires { Sound registers.now keys.old × (FitKey (contents_at key_size 5 l f.now) × (5 + l + key_size ≤ length f.now)) }
    ensures { (marks : List ℕ) → after result registers.now keys.new marks
        ≡ obeys (state registers.now keys.old marks)
        (λ v. loadRule v ns tag (contents_at key_size 5 l f.now)) }
{
    let u = 5 + l;
    let e = u + KEY_SIZE;
    let x = Contents {
        uid: &f[5..u],
        key: &f[u..e],
    };
    keys::load(registers, keys, ns, tag, x)
}

// A replace: the old KeyUID lies from byte 5 on, then a length byte, the new KeyUID and the key.
fn replace(
    registers: &Registers,
    keys: &mut [u8],
    f: &[u8],
    ns: Namespace,
    tag: Tag,
    o: usize,
    l: usize,
) -> Answer
    requires { Sound registers.now keys.old × (FitKey (contents_at key_size (6 + o) l f.now) × (6 + o + l + key_size ≤ length f.now)) }
    ensures { (marks : List ℕ) → after result registers.now keys.new marks
        ≡ obeys (state registers.now keys.old marks)
        (λ v. replaceRule v ns tag (part 5 o f.now) (contents_at key_size (6 + o) l f.now)) }
{
    let t = 5 + o;
    let u = 6 + o;
    let v = u + l;
    let e = v + KEY_SIZE;
    let x = Contents {
        uid: &f[u..v],
        key: &f[v..e],
    };
    keys::replace(registers, keys, ns, tag, &f[5..t], x)
}

// A frame that was read from these bytes, or the refusal of its line.
fn act(
    registers: &mut Registers,
    keys: &mut [u8],
    marks: &mut [u8],
    f: &mut [u8],
    read: Result<FrameRead, Refusal>,
    words: &mut [u32; SCHEDULE],
) -> Answer
    requires { Ready registers.old keys.old marks.old × Lies f.old read }
    ensures { (after result registers.new keys.new marks.new
        ≡ acted (state registers.old keys.old marks.old) (meant f.old read))
        × (drop replace_most f.new ≡ drop replace_most f.old)
        × (words.old ≡ zeros schedule_words → words.new ≡ zeros schedule_words) }
{
    let read = read?;
    match read {
        FrameRead::Manage(ns, tags) => keys::manage(registers, ns, tags),
        FrameRead::Release(ns) => keys::release(registers, keys, marks, ns),
        FrameRead::Load(ns, tag, l) => load(registers, keys, f, ns, tag, l),
        FrameRead::LoadWrapped(ns, tag, l) => {
            wrapped::load(registers, keys, f, ns, tag, l, words)
        }
        FrameRead::Replace(ns, tag, o, l) => replace(registers, keys, f, ns, tag, o, l),
        FrameRead::ClearOne(ns, tag) => keys::clear_one(registers, keys, ns, tag),
        FrameRead::ClearAll(ns) => keys::clear_all(registers, keys, ns),
        FrameRead::Io(c) => io::command(registers, keys, marks, c),
        FrameRead::SetFeatures(dword11) => boot::set_features(registers, dword11),
        FrameRead::GetFeatures => boot::get_features(registers),
        FrameRead::BootWrite(partition) => boot::boot_write(registers, partition),
        FrameRead::Reset(level) => boot::reset(registers, keys, level),
        FrameRead::Discovery => Ok(Granted::Discovery),
    }
}

// Zeroes what the reading of a line, or the opening of a wrapped key, left in a frame of zeros: it may hold a key. A line that is no longer
// than a replace may be leaves the rest alone. (Here, behind a reference, the stores stay; in the function that has the frame the compiler
// drops them.)
fn wipe(frame: &mut [u8], line: &[u8])
    requires { length frame.old ≡ digits_most / 2 }
    ensures { drop replace_most frame.old ≡ drop replace_most (read_from line.now (zeros (digits_most / 2))).frame
        → frame.new ≡ zeros (digits_most / 2) }
{
    cells::fill_zero(&mut frame[..REPLACE_MOST]);
    if line.len() > 2 * REPLACE_MOST {
        cells::fill_zero(&mut frame[REPLACE_MOST..]);
    }
}

// A line. Its bytes go to the front of the scratch's frame and are wiped there; so are what a message brought and the round keys of a wrapped
// load.
pub(crate) fn on_line(
    registers: &mut Registers,
    keys: &mut [u8],
    marks: &mut [u8],
    line: &[u8],
    scratch: &mut Scratch,
) -> Answer
    requires { Ready registers.old keys.old marks.old }
    ensures { (after result registers.new keys.new marks.new
        ≡ step (state registers.old keys.old marks.old) line.now)
        × (scratch.new.brought ≡ zeros (uid_most + key_size)) }
{
    let read = frames::read(line, &mut scratch.frame, &mut scratch.brought);
    let answer = act(
        registers,
        keys,
        marks,
        &mut scratch.frame,
        read,
        &mut scratch.words,
    );
    wipe(&mut scratch.frame, line);
    answer
}
