// The item at the front of a run of bytes.
ghost use Rattle.std.specs.Prelude.{◌≡◌, ◌+◌, ◌^◌, ◌<◌, length};
ghost use Rattle.rules.specs.Ttlv.{is_value, front};
ghost use Rattle.ttlv.specs.Reading.{Headed, placed};

use crate::{Front, ITEM_HEAD};

// (d) Types stay numbers: `Front` and `Item` hold any number, and `write` refuses a list with one that is no type. An enum would need a
// variant for those, with the number in it.
pub(crate) const STRUCTURE: u32 = 0x01;

const INTEGER: u32 = 0x02;

const ENUMERATION: u32 = 0x05;

const TEXT: u32 = 0x07;

const BYTE_STRING: u32 = 0x08;

// A value is padded to a multiple of so many bytes.
pub(crate) const PADDED_TO: usize = 8;

// The head of an item.
#[derive(Clone, Copy)]
struct Head {
    tag: u32,
    kind: u8,
    length: usize,
}

impl From<[u8; ITEM_HEAD]> for Head {
    ghost from_gives = { λ bytes head. Headed bytes head };

    fn from(bytes: [u8; ITEM_HEAD]) -> Head {
        let [high, middle, low, kind, a, b, c, d] = bytes;
        Head {
            tag: u32::from_be_bytes([0, high, middle, low]),
            kind,
            length: u32::from_be_bytes([a, b, c, d]) as usize,
        }
    }
}

// Whether a value of this type may have this length.
#[tactic(auto, unfolding(rules::specs::Ttlv::is_value))]
pub(crate) fn is_value(kind: u32, n: usize) -> bool
    ensures { result ≡ is_value kind n }
{
    match kind {
        INTEGER | ENUMERATION => n == 4,
        TEXT | BYTE_STRING => true,
        _ => false,
    }
}

// What stands at the front of a run of bytes, which starts at `at`. In line for `Walk`, as `next_item` says.
#[inline(always)]
pub(crate) fn front_of(run: &[u8], at: usize) -> Option<Front>
    requires { at + length run.now < 2 ^ 64 }
    ensures { result ≡ placed at (front run.now) }
{
    let (head, behind) = run.split_first_chunk()?;
    let Head { tag, kind, length } = Head::from(*head);
    if u32::from(kind) == STRUCTURE {
        return (length <= behind.len()).then_some(Front::Structure { tag, length });
    }
    let whole = length.next_multiple_of(PADDED_TO);
    let padding = behind.get(length..whole)?;
    if !is_value(u32::from(kind), length) || !cells::all_zero(padding) {
        return None;
    }
    let next = at + ITEM_HEAD + whole;
    Some(Front::Value {
        tag,
        kind,
        length,
        next,
    })
}
