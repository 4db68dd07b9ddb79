// Whether a state is sound: 07 0E. The cache is lent by the caller, at any length.
#![tactic(auto)]

ghost use Rattle.std.specs.Prelude.{◌≡◌, false, ◌||◌, [], ltb};
ghost use Rattle.rules.specs.Numbers.{pool_slots, tags_most};
ghost use Rattle.rules.specs.State.{total};
ghost use Rattle.rules.specs.Sound.{some_above, slot_unsound, unsound as isUnsound};
ghost use Rattle.sound.specs.Scan.{namespace_unsound, some_namespace_unsound};

use rules::{CACHE_SIZE, NAMESPACES, POOL_SLOTS, Registers, SLOT_WIDTH, TAGS_MOST, UID_MOST};

// (d) As in `slots`; but for this line and the two that take the cache apart the crates share nothing (decision 88).
type Slot = [u8; SLOT_WIDTH];

// The paper's scan.
pub fn unsound(registers: Registers, keys: &[u8]) -> bool
    ensures { result ≡ isUnsound (record { registers = registers; keys = keys.now; marks = [] }) }
{
    if keys.len() != CACHE_SIZE {
        return true;
    }
    let (slots, _kek) = keys.as_chunks();
    counts_unsound(registers.counts) || slots_unsound(registers.counts, slots)
}

// Whether a slot at an allocated tag is unsound.
fn slot_unsound(slot: &Slot) -> bool
    ensures { result ≡ slot_unsound false slot.now }
{
    let n = usize::from(slot[0]);
    if n == 0 {
        return !cells::all_zero(slot);
    }
    n > UID_MOST || !cells::all_zero(&slot[1 + n..1 + UID_MOST])
}

// Whether a slot of a namespace with this tag count is unsound: the allocated ones one by one, all behind them by one look for a byte
// other than zero.
fn namespace_unsound(slots: &[Slot; TAGS_MOST], count: u8) -> bool
    ensures { result ≡ namespace_unsound count slots.now }
{
    let count = usize::from(count).min(TAGS_MOST);
    let (allocated, behind) = slots.split_at(count);
    allocated.iter().any(slot_unsound) || !cells::all_zero(behind.as_flattened())
}

// A count above what a namespace may hold, or more in all than the pool has.
fn counts_unsound(counts: [u8; NAMESPACES]) -> bool
    ensures { result ≡ (some_above tags_most counts || ltb pool_slots (total counts)) }
{
    counts.iter().any(|n| usize::from(*n) > TAGS_MOST)
        || counts.iter().map(|n| usize::from(*n)).sum::<usize>() > POOL_SLOTS
}

// Whether a slot of any namespace is unsound.
fn slots_unsound(counts: [u8; NAMESPACES], slots: &[Slot]) -> bool
    ensures { result ≡ some_namespace_unsound counts slots.now }
{
    let (namespaces, _) = slots.as_chunks();
    counts
        .iter()
        .zip(namespaces)
        .any(|(count, slots)| namespace_unsound(slots, *count))
}
