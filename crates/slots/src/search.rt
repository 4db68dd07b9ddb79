// The search of the slots for an equal KeyUID with another key.
ghost use Rattle.std.specs.Prelude.{◌≡◌, take, length};
ghost use Rattle.std.specs.List.{list_any};
ghost use Rattle.cells.specs.Predicates.{same};
ghost use Rattle.slots.specs.Cache.{head_of, other_key_behind};
ghost use Rattle.slots.specs.Search.{other_key_in_namespaces};

use crate::bytes::{HEAD_SIZE, Head, Slot, same_key};
use rules::{NAMESPACES, TAGS_MOST, UID_MOST};

// As many bytes as a processor compares in one step.
const HALF_UID: usize = UID_MOST / 2;

// Where the second half of a padded KeyUID stands in a head.
const REST_AT: usize = 1 + HALF_UID;

// Whether as many bytes are the same. (b) As many turns whatever they are, and no way out of the fold: the compiler compares half a KeyUID at once.
fn same_run(a: &[u8], b: &[u8]) -> bool
    requires { length a.now ≡ length b.now }
    ensures { result ≡ same a.now b.now }
{
    a.iter().zip(b).fold(true, |same, (x, y)| same & (*x == *y))
}

// Whether the slot has this head: lengths first, so that of an empty slot, or one with another length, no other byte is looked at; then the
// KeyUID, half by half, up to the first half that differs. The second half comes first: numbers of one production begin alike, and a test
// that turns out now this way and now that costs more than the other half.
fn same_head(slot: &Slot, head: &Head) -> bool
    ensures { result ≡ same (head_of slot.now) head.now }
{
    slot[0] == head[0]
        && same_run(&slot[REST_AT..HEAD_SIZE], &head[REST_AT..])
        && same_run(&slot[1..REST_AT], &head[1..REST_AT])
}

fn other_key_at(slot: &Slot, head: &Head, key: &[u8]) -> bool
    ensures { result ≡ other_key_behind head.now key.now slot.now }
{
    same_head(slot, head) && !same_key(slot, key)
}

// Whether one of a namespace's slots whose tag is below this count has this head and another key.
fn other_key_below(slots: &[Slot; TAGS_MOST], count: u8, head: &Head, key: &[u8]) -> bool
    ensures { result ≡ list_any (λ c. other_key_behind head.now key.now c) (take count slots.now) }
{
    let n = usize::from(count).min(TAGS_MOST);
    slots[..n].iter().any(|slot| other_key_at(slot, head, key))
}

// The same of the slots of every namespace.
pub(crate) fn other_key_behind(
    counts: [u8; NAMESPACES],
    slots: &[Slot],
    head: &Head,
    key: &[u8],
) -> bool
    ensures { result ≡ other_key_in_namespaces counts head.now key.now slots.now }
{
    let (namespaces, _) = slots.as_chunks();
    counts
        .iter()
        .zip(namespaces)
        .any(|(count, slots)| other_key_below(slots, *count, head, key))
}
