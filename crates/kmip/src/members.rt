// The items of a run, one after another, and the first of a tag.
ghost use Rattle.std.specs.Prelude.{◌≡◌, MatchOption, length};
ghost use Rattle.std.specs.Iterator.{at_most};
ghost use Rattle.rules.specs.Ttlv.{end};
ghost use Rattle.rules.specs.Kmip.{lacks};
ghost use Rattle.kmip.specs.Runs.{items_of, First, Found, FoundStructure, FoundValue};

use crate::run::Run;
use ttlv::{Front, ITEM_HEAD, item_at};

// (d) Types stay numbers, as `ttlv` tells them: an enum would be made from the number of each item that is passed over, to be compared once.
pub(crate) const TEXT: u8 = 0x07;

pub(crate) const BYTE_STRING: u8 = 0x08;

// What stands behind an item's head: a value of a type, or members.
#[derive(Clone, Copy)]
pub(crate) enum Body<'a> {
    Value { kind: u8, bytes: &'a [u8] },
    Structure(Run<'a>),
}

#[derive(Clone, Copy)]
pub(crate) struct Item<'a> {
    pub tag: u32,
    pub body: Body<'a>,
}

// The item at the front, and the run behind it.
fn first(run: Run<'_>) -> Option<(Item<'_>, Run<'_>)>
    ensures { MatchOption result (items_of run.entry ≡ end) (λ p. First run.entry p.0 p.1) }
{
    let bytes = run.bytes;
    match item_at(bytes, 0, bytes.len())? {
        Front::Value {
            tag,
            kind,
            length,
            next,
        } => {
            let value = &bytes[ITEM_HEAD..ITEM_HEAD + length];
            let body = Body::Value { kind, bytes: value };
            let bytes = &bytes[next..];
            Some((Item { tag, body }, Run { bytes }))
        }
        Front::Structure { tag, length } => {
            let next = ITEM_HEAD + length;
            let members = &bytes[ITEM_HEAD..next];
            let body = Body::Structure(Run { bytes: members });
            let bytes = &bytes[next..];
            Some((Item { tag, body }, Run { bytes }))
        }
    }
}

impl<'a> Iterator for Run<'a> {
    type Item = Item<'a>;

    ghost next_gives = { λ s r t. MatchOption r (items_of s ≡ end) (λ item. First s item t) };

    ghost remaining = { λ s. at_most (length s.bytes.now) };

    fn next(&mut self) -> Option<Item<'a>> {
        let (item, behind) = first(*self)?;
        *self = behind;
        Some(item)
    }
}

// The first item with this tag, and the run behind it.
fn find(mut run: Run<'_>, tag: u32) -> Option<(Body<'_>, Run<'_>)>
    ensures { Found tag (items_of run.entry) result }
{
    let item = run.find(|item| item.tag == tag)?;
    Some((item.body, run))
}

// The first item with this tag, if it is a value of this type: the value, and the run behind it.
pub(crate) fn value(run: Run<'_>, tag: u32, kind: u8) -> Option<(&[u8], Run<'_>)>
    ensures { FoundValue tag kind (items_of run.entry) result }
{
    let (body, behind) = find(run, tag)?;
    match body {
        Body::Value { kind: k, bytes } if k == kind => Some((bytes, behind)),
        _ => None,
    }
}

// The first item with this tag, if it is a structure: its members, and the run behind it.
pub(crate) fn structure(run: Run<'_>, tag: u32) -> Option<(Run<'_>, Run<'_>)>
    ensures { FoundStructure tag (items_of run.entry) result }
{
    let (body, behind) = find(run, tag)?;
    match body {
        Body::Structure(members) => Some((members, behind)),
        _ => None,
    }
}

// Whether no item has this tag.
pub(crate) fn absent(mut run: Run<'_>, tag: u32) -> bool
    ensures { result ≡ lacks tag (items_of run.entry) }
{
    run.all(|item| item.tag != tag)
}
