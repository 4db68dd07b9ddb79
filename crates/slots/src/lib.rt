// The key cache, lent by the caller at any length: the slot of a place is the SLOT_WIDTH bytes from place * SLOT_WIDTH. Every function is
// total; a cache of another length than CACHE_SIZE has no slots, and stays.
#![tactic(auto)]

ghost use Rattle.std.specs.Prelude.{◌≡◌, ◌≢◌, ◌&&◌, [], length, MatchOption};
ghost use Rattle.std.specs.Simd.{first_chunks};
ghost use Rattle.cells.specs.Predicates.{same};
ghost use Rattle.rules.specs.Numbers.{slot_width, slot_places, cache_size};
ghost use Rattle.rules.specs.Slots.{loaded as isLoaded, uid_of};
ghost use Rattle.slots.specs.Cache.{slot_at, other_key_allocated, stored, cleared, cleared_all, cleared_up_to, cleared_allocated};

mod bytes;
mod search;

use bytes::Slot;
use rules::{
    CACHE_SIZE, KEY_SIZE, NAMESPACES, Namespace, SLOT_PLACES, SLOT_WIDTH, TAGS_MOST, UID_MOST,
};

// All slots, of a cache of the right length.
fn slots_of(keys: &[u8]) -> Option<&[Slot]>
    ensures { MatchOption result (length keys.now ≢ cache_size)
        (λ slots. (length keys.now ≡ cache_size) × (slots.now ≡ first_chunks slot_width slot_places keys.now)) }
{
    if keys.len() != CACHE_SIZE {
        return None;
    }
    let (slots, _kek) = keys.as_chunks();
    Some(slots)
}

fn slot_at(keys: &[u8], place: usize) -> Option<&Slot>
    ensures { MatchOption result (slot_at place keys.now ≡ []) (λ slot. slot.now ≡ slot_at place keys.now) }
{
    slots_of(keys)?.get(place)
}

// Whether the slot holds a key. A place past the last slot holds none.
pub fn loaded(keys: &[u8], place: usize) -> bool
    ensures { result ≡ isLoaded (slot_at place keys.now) }
{
    slot_at(keys, place).is_some_and(bytes::is_loaded)
}

// Whether the slot holds this KeyUID.
pub fn holds_uid(keys: &[u8], place: usize, uid: &[u8]) -> bool
    ensures { result ≡ (isLoaded (slot_at place keys.now) && same (uid_of (slot_at place keys.now)) uid.now) }
{
    slot_at(keys, place).is_some_and(|slot| bytes::is_loaded(slot) && bytes::same_uid(slot, uid))
}

// 07 0C: whether a slot has this KeyUID and another key. It looks at allocated tags alone, a count above TAGS_MOST as TAGS_MOST, and at
// the length byte and the padded KeyUID: for a KeyUID of 1 byte or more in a sound state that finds every loaded slot with this KeyUID
// and no other (proofs/AllocatedLaws.antt). It makes the head once; a KeyUID above UID_MOST bytes is in no slot.
pub fn other_key_allocated(counts: [u8; NAMESPACES], keys: &[u8], uid: &[u8], key: &[u8]) -> bool
    ensures { result ≡ other_key_allocated counts keys.now (record { uid = uid.entry.now; key = key.now }) }
{
    let Some(slots) = slots_of(keys) else {
        return false;
    };
    if uid.len() > UID_MOST {
        return false;
    }
    let head = bytes::head_of(uid);
    search::other_key_behind(counts, slots, &head, key)
}

pub fn store(keys: &mut [u8], place: usize, uid: &[u8], key: &[u8])
    ensures { keys.new ≡ stored place (record { uid = uid.entry.now; key = key.now }) keys.old }
{
    if keys.len() == CACHE_SIZE
        && place < SLOT_PLACES
        && uid.len() <= UID_MOST
        && key.len() == KEY_SIZE
    {
        let a = place * SLOT_WIDTH;
        bytes::set_slot(&mut keys[a..a + SLOT_WIDTH], uid, key);
    }
}

pub fn clear(keys: &mut [u8], place: usize)
    ensures { keys.new ≡ cleared place keys.old }
{
    if place < SLOT_PLACES {
        bytes::clear_run(keys, place, 1);
    }
}

pub fn clear_all(keys: &mut [u8])
    ensures { keys.new ≡ cleared_all keys.old }
{
    bytes::clear_run(keys, 0, SLOT_PLACES);
}

// A namespace's slots up to a count. In a sound state, up to its own count, that empties the namespace: no other slot is touched, so that
// what it costs does not grow with the places that are not allocated (proofs/ClearLaws.antt). Not in line: where it is, in the drive's longest
// function, `clear all` of few tags takes up to half as long again.
#[inline(never)]
pub fn clear_up_to(keys: &mut [u8], ns: Namespace, count: u8)
    ensures { keys.new ≡ cleared_up_to ns count keys.old }
{
    let n = ns.0 as usize;
    if (1..=NAMESPACES).contains(&n) {
        let tags = usize::from(count).min(TAGS_MOST);
        bytes::clear_run(keys, (n - 1) * TAGS_MOST, tags);
    }
}

// The same of every namespace that has tags, each up to its count: in a sound state all slots.
pub fn clear_allocated(counts: [u8; NAMESPACES], keys: &mut [u8])
    ensures { keys.new ≡ cleared_allocated counts keys.old }
{
    for (i, count) in counts.iter().enumerate() {
        let managed = *count > 0;
        if managed {
            clear_up_to(keys, Namespace(i as u32 + 1), *count);
        }
    }
}
