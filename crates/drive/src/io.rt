// I/O commands: their fields, the key check, the marks.
ghost use Rattle.std.specs.Prelude.{◌≡◌, ◌+◌, ◌*◌, ◌<◌, [], length, Some, Ok};
ghost use Rattle.cells.specs.Cells.{part};
ghost use Rattle.rules.specs.State.{count as count_of, IsNamespace};
ghost use Rattle.rules.specs.Numbers.{blocks_each, slot_width, slot_places, cache_size, mark_width};
ghost use Rattle.rules.specs.Marks.{block_of};
ghost use Rattle.rules.specs.Order.{obeys, command as commandRule, out_of_range};
ghost use Rattle.marks.specs.Store.{some_differs, marked};
ghost use Rattle.drive.specs.Acting.{state, after, Ready, access_of, keyed, reached, Known, Sound};

use crate::Access;
use crate::answers::{count, no_namespace, place};
use rules::{Answer, BLOCKS_EACH, Command, Granted, MARK_WIDTH, Refusal, Registers, SLOT_WIDTH};

fn access(opcode: u8) -> Result<Access, Refusal>
    ensures { result ≡ access_of opcode }
{
    match opcode {
        0x01 => Ok(Access::Write),
        0x02 | 0x05 | 0x0C => Ok(Access::Read),
        0x00 | 0x03..=0x04 | 0x06..=0x0B | 0x0D..=0xFF => Err(Refusal::InvalidOpcode),
    }
}

// 00 80. First block is a 64-bit number: it is tested before it is added to.
fn out_of_range(c: Command) -> bool
    ensures { result ≡ out_of_range c }
{
    if c.first >= BLOCKS_EACH as u64 {
        return true;
    }
    c.first as usize + usize::from(c.more) + 1 > BLOCKS_EACH
}

// The key checks of a managed namespace with n tags.
fn key_place(registers: &Registers, keys: &[u8], c: Command, n: u8) -> Result<usize, Refusal>
    requires { Sound registers.now keys.now × (IsNamespace c.ns × (n ≡ count_of (state registers.now [] []) c.ns)) }
    ensures { result ≡ keyed (state registers.now keys.now []) c }
{
    if c.cetype != 1 {
        return Err(Refusal::InvalidField);
    }
    let at = place(n, c.ns, c.tag)?;
    if !slots::loaded(keys, at) {
        return Err(Refusal::InvalidKeyTag);
    }
    Ok(at)
}

// The checks of a command with a known opcode, up to the marks: the slot that it reaches, none in an unmanaged namespace.
fn reach(registers: &Registers, keys: &[u8], c: Command) -> Result<Option<usize>, Refusal>
    requires { Sound registers.now keys.now }
    ensures { result ≡ reached (state registers.now keys.now []) c }
{
    if no_namespace(c.ns) {
        return Err(Refusal::InvalidNamespace);
    }
    if out_of_range(c) {
        return Err(Refusal::BlocksOutOfRange);
    }
    match count(registers, c.ns) {
        0 => Ok(None),
        n => Ok(Some(key_place(registers, keys, c, n)?)),
    }
}

// The identity of a slot's key: its first MARK_WIDTH bytes.
fn identity(keys: &[u8], place: usize) -> &[u8]
    requires { (length keys.now ≡ cache_size) × (place < slot_places) }
    ensures { result.now ≡ part (place * slot_width) mark_width keys.now }
{
    let a = place * SLOT_WIDTH;
    let e = a + MARK_WIDTH;
    &keys[a..e]
}

// 00 28: whether a covered block was written under another identity than that of the slot's key.
fn wrong_key(keys: &[u8], marks: &[u8], place: usize, block: usize, n: usize) -> bool
    requires { (length keys.now ≡ cache_size) × (place < slot_places) }
    ensures { result ≡ some_differs block n (part (place * slot_width) mark_width keys.now) marks.now }
{
    marks::some_differs(marks, block, n, identity(keys, place))
}

// The covered marks become the identity of the slot's key.
fn mark_covered(keys: &[u8], marks: &mut [u8], place: usize, block: usize, n: usize)
    requires { (length keys.now ≡ cache_size) × (place < slot_places) }
    ensures { marks.new ≡ marked block n (part (place * slot_width) mark_width keys.now) marks.old }
{
    marks::mark(marks, block, n, identity(keys, place));
}

// The place of a command's first block in the mark store.
fn block_of(c: Command) -> usize
    requires { IsNamespace c.ns × (c.first < blocks_each) }
    ensures { result ≡ block_of c.ns c.first }
{
    (c.ns.0 as usize - 1) * BLOCKS_EACH + c.first as usize
}

// At a slot: a write marks the covered blocks; a read, compare or verify is held to their marks.
fn at_place(
    registers: &Registers,
    keys: &[u8],
    marks: &mut [u8],
    c: Command,
    place: usize,
    access: Access,
) -> Answer
    requires { Ready registers.now keys.now marks.old × Known c access × (Ok (Some place) ≡ reached (state registers.now keys.now []) c) }
    ensures { after result registers.now keys.now marks.new
        ≡ obeys (state registers.now keys.now marks.old) (λ v. commandRule v c) }
{
    let block = block_of(c);
    let n = usize::from(c.more) + 1;
    match access {
        Access::Write => mark_covered(keys, marks, place, block, n),
        Access::Read => {
            if wrong_key(keys, marks, place, block, n) {
                return Err(Refusal::IncorrectKey);
            }
        }
    }
    Ok(Granted::Done)
}

// One I/O command. It leaves the keys as they are. Not in line: its patterns of marks, 544 bytes of stack, would stand under a wrapped load too, and
// include/tuffaleen.h says how much a call takes at most (tests/left-behind.c).
#[inline(never)]
pub(crate) fn command(registers: &Registers, keys: &[u8], marks: &mut [u8], c: Command) -> Answer
    requires { Ready registers.now keys.now marks.old }
    ensures { after result registers.now keys.now marks.new
        ≡ obeys (state registers.now keys.now marks.old) (λ v. commandRule v c) }
{
    let access = access(c.opcode)?;
    match reach(registers, keys, c)? {
        None => Ok(Granted::Done),
        Some(place) => at_place(registers, keys, marks, c, place, access),
    }
}
