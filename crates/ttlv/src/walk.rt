// A walk over the items of some bytes, in their order.
ghost use Rattle.std.specs.Prelude.{◌≡◌, ◌≤◌, suc, length};
ghost use Rattle.rules.specs.Ttlv.{deepest};
ghost use Rattle.ttlv.specs.Between.{Nested, Nested-prop};

use crate::reading::STRUCTURE;
use crate::{DEEPEST, Front, ITEM_HEAD, Numbers, ReadError, item_at};

// The bytes themselves are one more level.
const LEVELS: usize = DEEPEST + 1;

// Where a walk stands between two items, with the ends of the open structures, that of the bytes first.
// (a) Memory is fixed: the ends are the first `levels` of an array.
#[derive(Drop)]
pub(crate) struct Walk<'a> {
    pub bytes: &'a [u8],
    pub at: usize,
    pub ends: [usize; LEVELS],
    pub levels: usize,
    ghost inside: { at ≤ length bytes.now },
    ghost few: { levels ≤ suc deepest },
    ghost nested: { Nested bytes.now ends levels at } by { Nested-prop bytes.now ends levels at },
}

// An item where it was found, in bytes of any length.
#[derive(Clone, Copy)]
pub(crate) struct Found {
    pub depth: usize,
    pub start: usize,
    pub front: Front,
}

impl Found {
    ghost use Rattle.ttlv.specs.Listing.{numbers_of};
    ghost use Rattle.ttlv.specs.Walking.{NumbersFit, item_of};

    pub(crate) fn numbers(self) -> Numbers
        requires { NumbersFit (item_of self) }
        ensures { result ≡ numbers_of (item_of self) }
    {
        let (tag, kind, length) = match self.front {
            Front::Value {
                tag,
                kind,
                length,
                ..
            } => (tag, u32::from(kind), length),
            Front::Structure { tag, length } => (tag, STRUCTURE, length),
        };
        [
            tag,
            kind,
            self.depth as u32,
            self.start as u32,
            length as u32,
        ]
    }
}

impl<'a> Walk<'a> {
    ghost use Rattle.ttlv.specs.Walking.{Starts, Closed, Walked};

    pub(crate) fn new(bytes: &'a [u8]) -> Walk<'a>
        ensures { Starts bytes.now result }
    {
        Walk {
            bytes,
            at: 0,
            ends: [bytes.len(); LEVELS],
            levels: 1,
        }
    }

    // Leaves the structures that end here.
    fn close(&mut self)
        ensures { Closed self.old self.new }
    {
        while self.levels > 0 && self.ends[self.levels - 1] == self.at {
            self.levels -= 1;
        }
    }

    // The next item, if one is left. In line, a step's result is not laid down in memory: that takes a quarter more time.
    #[inline(always)]
    pub(crate) fn next_item(&mut self) -> Result<Option<Found>, ReadError>
        ensures { Walked self.old result self.new }
    {
        self.close();
        if self.levels == 0 {
            return Ok(None);
        }
        if self.levels > DEEPEST {
            return Err(ReadError::NoItems);
        }
        let end = self.ends[self.levels - 1];
        let front = item_at(self.bytes, self.at, end).ok_or(ReadError::NoItems)?;
        let depth = self.levels;
        let start = self.at + ITEM_HEAD;
        match front {
            Front::Value { next, .. } => self.at = next,
            Front::Structure { length, .. } => {
                self.ends[self.levels] = start + length;
                self.levels += 1;
                self.at = start;
            }
        }
        Ok(Some(Found {
            depth,
            start,
            front,
        }))
    }
}
