// TTLV, the encoding of the KMIP standard: what stands in any bytes. The rules are in `rules` specs/Ttlv.antt.
#![tactic(auto)]

ghost use Rattle.std.specs.Prelude.{◌≡◌};
ghost use Rattle.rules.specs.Ttlv.{read_items};
ghost use Rattle.ttlv.specs.ItemList.{is_some};
ghost use Rattle.ttlv.specs.Reading.{item_at};
ghost use Rattle.ttlv.specs.Listing.{first_item, read_list};
ghost use Rattle.ttlv.specs.Writing.{write_list};

mod listing;
mod reading;
mod walk;
mod writing;

use listing::list;
use reading::front_of;
use walk::Walk;
use writing::Items;

pub const DEEPEST: usize = 8;

pub const ITEM_HEAD: usize = 8;

// An item list is lent as numbers, five an item: tag, type, depth, start, length.
pub const ITEM_PLACES: usize = 5;

pub const ITEMS_MOST: usize = 63;

pub const MESSAGE_MOST: usize = 508;

// A length has four bytes.
const LENGTHS: usize = 0x1_0000_0000;

// An item of a list in the order of the bytes: its value is the `length` bytes from `start` on.
#[derive(Clone, Copy)]
pub struct Item {
    pub tag: u32,
    pub kind: u32,
    pub depth: u32,
    pub start: u32,
    pub length: u32,
}

// An item's numbers.
pub(crate) type Numbers = [u32; ITEM_PLACES];

impl From<Numbers> for Item {
    ghost from_gives = { λ numbers item. item ≡ first_item numbers };

    fn from(numbers: Numbers) -> Item {
        let [tag, kind, depth, start, length] = numbers;
        Item {
            tag,
            kind,
            depth,
            start,
            length,
        }
    }
}

// What stands at the front of a run of bytes, by places: a value and where the next item would start, or a structure.
#[derive(Clone, Copy)]
pub enum Front {
    Value {
        tag: u32,
        kind: u8,
        length: usize,
        next: usize,
    },
    Structure {
        tag: u32,
        length: usize,
    },
}

// Why no list is read: too few places for any message, or bytes that are no items.
#[derive(Clone, Copy, Debug, PartialEq, Eq)]
pub enum ReadError {
    NoPlaces,
    NoItems,
}

// Why no bytes are written: too little room, or numbers that are no item list.
#[derive(Clone, Copy, Debug, PartialEq, Eq)]
pub enum WriteError {
    Short,
    NoList,
}

// What stands at `at`, among the bytes up to `end`. No item stands in a run that is not there. (a) Bytes and two places, as `promises`
// `Tight-ttlv-item-at` has them: it answers for any.
pub fn item_at(bytes: &[u8], at: usize, end: usize) -> Option<Front>
    ensures { result ≡ item_at bytes.now at end }
{
    front_of(bytes.get(at..end)?, at)
}

// Whether the bytes are items, none deeper than eight.
pub fn sound(bytes: &[u8]) -> bool
    ensures { result ≡ is_some (read_items bytes.now) }
{
    let mut walk = Walk::new(bytes);
    loop {
        match walk.next_item() {
            Ok(Some(_)) => {}
            Ok(None) => return true,
            Err(_) => return false,
        }
    }
}

// The items of the bytes as a list, laid at the front of the places; how many they are. What is refused leaves the places as they were.
// (a) A list is lent as numbers, five an item, here and in `write`: so docs/KMIP.md and the theorems `listed_so` and `written_back` have it.
pub fn read(bytes: &[u8], places: &mut [u32]) -> Result<usize, ReadError>
    ensures { record { result = result; places = places.new } ≡ read_list bytes.now places.old }
{
    if places.len() < ITEM_PLACES * ITEMS_MOST {
        return Err(ReadError::NoPlaces);
    }
    if bytes.len() > MESSAGE_MOST || !sound(bytes) {
        return Err(ReadError::NoItems);
    }
    list(bytes, places)
}

// The encoding of the list of the first `count` items, whose values stand among `values`, at the front of the output; how many bytes it
// is. What is refused leaves the output as it was.
pub fn write(
    items: &[u32],
    count: usize,
    values: &[u8],
    out: &mut [u8],
) -> Result<usize, WriteError>
    ensures { record { result = result; out = out.new } ≡ write_list items.now count values.now out.old }
{
    let items = Items::new(items, count).ok_or(WriteError::NoList)?;
    let n = items.room();
    if out.len() < n {
        return Err(WriteError::Short);
    }
    if !items.are_good(values.len()) || n >= LENGTHS {
        return Err(WriteError::NoList);
    }
    Ok(items.lay(out, values))
}
