// One slot's bytes: the KeyUID's length, 0 for an empty slot; the KeyUID padded with zeros; the key.
ghost use Rattle.std.specs.Prelude.{◌≡◌, ◌+◌, ◌≤◌, cond, length};
ghost use Rattle.cells.specs.Cells.{fill};
ghost use Rattle.cells.specs.Predicates.{same};
ghost use Rattle.rules.specs.Numbers.{uid_most, key_size, slot_width, slot_places};
ghost use Rattle.rules.specs.State.{wrong_cache};
ghost use Rattle.rules.specs.Slots.{slot_bytes, emptied, loaded, uid_of, key_of};
ghost use Rattle.slots.specs.Cache.{head_bytes};

use rules::{CACHE_SIZE, SLOT_WIDTH, UID_MOST};

pub(crate) type Slot = [u8; SLOT_WIDTH];

// A slot's bytes before its key, its head: the KeyUID's length and the padded KeyUID.
pub(crate) const HEAD_SIZE: usize = 1 + UID_MOST;

pub(crate) type Head = [u8; HEAD_SIZE];

pub(crate) fn is_loaded(slot: &Slot) -> bool
    ensures { result ≡ loaded slot.now }
{
    slot[0] != 0
}

// Whether the slot's KeyUID is this one: lengths first. A length byte past the slot ends with the slot.
pub(crate) fn same_uid(slot: &Slot, uid: &[u8]) -> bool
    ensures { result ≡ same (uid_of slot.now) uid.now }
{
    let behind = &slot[1..];
    let n = usize::from(slot[0]).min(behind.len());
    cells::equal(&behind[..n], uid)
}

// Not in line: a search comes here only where the KeyUID is the same, and its loop is as short as it can be without this.
#[inline(never)]
pub(crate) fn same_key(slot: &Slot, key: &[u8]) -> bool
    ensures { result ≡ same (key_of slot.now) key.now }
{
    cells::equal(&slot[HEAD_SIZE..], key)
}

// A slot's head from a KeyUID.
pub(crate) fn head_of(uid: &[u8]) -> Head
    requires { length uid.now ≤ uid_most }
    ensures { result ≡ head_bytes uid.now }
{
    let n = uid.len();
    let mut head = [0; HEAD_SIZE];
    head[0] = n as u8;
    head[1..1 + n].copy_from_slice(uid);
    head
}

// A slot's bytes from a KeyUID and a key.
pub(crate) fn set_slot(slot: &mut [u8], uid: &[u8], key: &[u8])
    requires { (length slot.old ≡ slot_width) × (length uid.now ≤ uid_most) × (length key.now ≡ key_size) }
    ensures { slot.new ≡ slot_bytes (record { uid = uid.entry.now; key = key.now }) }
{
    slot[..HEAD_SIZE].copy_from_slice(&head_of(uid));
    slot[HEAD_SIZE..].copy_from_slice(key);
}

// The n slots from first on emptied by one fill, in a cache of the right length.
pub(crate) fn clear_run(keys: &mut [u8], first: usize, n: usize)
    requires { first + n ≤ slot_places }
    ensures { keys.new ≡ cond (wrong_cache keys.old) keys.old (fill slot_width first n emptied keys.old) }
{
    if keys.len() == CACHE_SIZE {
        cells::zero_part(keys, first * SLOT_WIDTH, n * SLOT_WIDTH);
    }
}
