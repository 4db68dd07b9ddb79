// The bytes of an item list that is lent as numbers.
ghost use Rattle.std.specs.Prelude.{◌≡◌, ◌∷◌, ◌++◌, ◌+◌, ◌*◌, ◌^◌, ◌≤◌, ◌<◌, length, drop, leb, position, MatchOption};
ghost use Rattle.rules.specs.Ttlv.{deepest, item_head, to_eight, head, is_value};
ghost use Rattle.ttlv.specs.Listing.{items_most, first_item};
ghost use Rattle.ttlv.specs.Writing.{deeper, good_item, good_from, most_behind, room_of, room_for};
ghost use Rattle.ttlv.specs.Pieces.{items_of, Absent, FirstItems, with_length, Room, piece_of, Inside, value_put, Layable, LaidOut};

use crate::reading::{PADDED_TO, STRUCTURE, is_value};
use crate::{DEEPEST, ITEM_HEAD, ITEM_PLACES, ITEMS_MOST, Item, Numbers};

const TAGS: u32 = 0x1000000;

const DEEPEST_ITEM: u32 = DEEPEST as u32;

// The items of a list by their numbers, no more of them than a message has.
#[derive(Clone, Copy)]
pub(crate) struct Items<'a> {
    arrays: &'a [Numbers],
    ghost few: { length arrays.now ≤ items_most },
}

impl Item {
    // The bytes that it takes.
    fn room(self) -> usize
        ensures { Room self result }
    {
        if self.kind == STRUCTURE {
            return ITEM_HEAD;
        }
        ITEM_HEAD + (self.length as usize).next_multiple_of(PADDED_TO)
    }

    // Whether it may stand at depth `most` or less, with its value among n bytes.
    #[tactic(auto, unfolding(crate::specs::Writing::good_item))]
    fn is_good(self, n: usize, most: u32) -> bool
        ensures { result ≡ good_item n most self }
    {
        let end = self.start as usize + self.length as usize;
        self.tag < TAGS
            && 1 <= self.depth
            && self.depth <= most
            && self.depth <= DEEPEST_ITEM
            && (self.kind == STRUCTURE || is_value(self.kind, self.length as usize) && end <= n)
    }

    // How deep the next item may stand.
    fn most_behind(self) -> u32
        requires { self.depth ≤ deepest }
        ensures { result ≡ most_behind self }
    {
        if self.kind == STRUCTURE {
            return self.depth + 1;
        }
        self.depth
    }

    // As it is written, with the items behind it: a structure has the length of its members.
    fn as_written(self, behind: Items) -> Item
        requires { room_for (items_of behind.arrays.now) < 2 ^ 32 }
        ensures { result ≡ with_length self (room_for (deeper self.depth (items_of behind.entry.arrays.now))) }
    {
        if self.kind != STRUCTURE {
            return self;
        }
        let length = behind.deeper(self.depth).room() as u32;
        Item { length, ..self }
    }

    fn head(self) -> [u8; ITEM_HEAD]
        requires { self.kind < 256 }
        ensures { result ≡ head self.tag self.kind self.length }
    {
        let [_, high, middle, low] = self.tag.to_be_bytes();
        let [a, b, c, d] = self.length.to_be_bytes();
        [high, middle, low, self.kind as u8, a, b, c, d]
    }

    // Its bytes, at the front.
    fn put(self, out: &mut [u8], values: &[u8])
        requires { (room_of self ≤ length out.old) × Inside values.now self }
        ensures { out.new ≡ piece_of values.now self ++ drop (room_of self) out.old }
    {
        out[..ITEM_HEAD].copy_from_slice(&self.head());
        if self.kind == STRUCTURE {
            return;
        }
        let start = self.start as usize;
        let stop = start + self.length as usize;
        put_value(out, &values[start..stop]);
    }
}

impl<'a> Items<'a> {
    // The first `count` items of these numbers, if there are so many, and not too many for a message.
    pub(crate) fn new(numbers: &'a [u32], count: usize) -> Option<Items<'a>>
        ensures { MatchOption result (Absent count numbers.now) (λ items. FirstItems count numbers.now items.arrays.now) }
    {
        if count > ITEMS_MOST {
            return None;
        }
        let (arrays, _) = numbers.get(..ITEM_PLACES * count)?.as_chunks();
        Some(Items { arrays })
    }

    // The bytes of all items.
    pub(crate) fn room(self) -> usize
        ensures { result ≡ room_for (items_of self.entry.arrays.now) }
    {
        self.arrays
            .iter()
            .map(|numbers| Item::from(*numbers).room())
            .sum()
    }

    // The place of the first item that is not deeper than `depth`.
    fn first_not_deeper(self, depth: u32) -> Option<usize>
        ensures { result ≡ position (λ ns. leb (first_item ns).depth depth) self.entry.arrays.now }
    {
        self.arrays
            .iter()
            .position(|numbers| Item::from(*numbers).depth <= depth)
    }

    // The items in front that are deeper than `depth`.
    fn deeper(self, depth: u32) -> Items<'a>
        ensures { items_of result.arrays.now ≡ deeper depth (items_of self.entry.arrays.now) }
    {
        let count = self.first_not_deeper(depth).unwrap_or(self.arrays.len());
        Items {
            arrays: &self.arrays[..count],
        }
    }

    // Whether each item may stand where it stands.
    pub(crate) fn are_good(self, n: usize) -> bool
        ensures { result ≡ good_from n 1 (items_of self.entry.arrays.now) }
    {
        let mut most = 1;
        for numbers in self.arrays {
            let item = Item::from(*numbers);
            if !item.is_good(n, most) {
                return false;
            }
            most = item.most_behind();
        }
        true
    }

    // The items, one after another, at the front; how many bytes they take.
    pub(crate) fn lay(self, out: &mut [u8], values: &[u8]) -> usize
        requires { Layable (items_of self.arrays.now) values.now out.old }
        ensures { LaidOut (items_of self.entry.arrays.now) values.now out.old result out.new }
    {
        let mut at = 0;
        let mut left = self.arrays;
        while let [numbers, behind @ ..] = left {
            let item = Item::from(*numbers).as_written(Items { arrays: behind });
            item.put(&mut out[at..], values);
            at += item.room();
            left = behind;
        }
        at
    }
}

// A value and its padding, behind the head's place.
fn put_value(out: &mut [u8], value: &[u8])
    requires { item_head + to_eight (length value.now) ≤ length out.old }
    ensures { out.new ≡ value_put value.now out.old }
{
    let to = ITEM_HEAD + value.len();
    let end = ITEM_HEAD + value.len().next_multiple_of(PADDED_TO);
    out[ITEM_HEAD..to].copy_from_slice(value);
    out[to..end].fill(0);
}
