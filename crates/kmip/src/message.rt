// A message, from the payload out.
ghost use Rattle.std.specs.Prelude.{◌≡◌};
ghost use Rattle.rules.specs.Kmip.{payload_good, brought_by, in_order, batch_item, request_message, from, behind_of, members_of, load_of};
ghost use Rattle.rules.specs.Kmip.{BatchItem, RequestHeader};
ghost use Rattle.kmip.specs.Reading.{shown, loaded};
ghost use Rattle.kmip.specs.Runs.{items_of, GivesIf, payload_of};

use crate::Slot;
use crate::attributes::attributes;
use crate::keys::{aes, symmetric};
use crate::members::{Body, TEXT, structure, value};
use crate::rows::{NumberType, header, numbered};
use crate::run::{Run, run_of};
use rules::KEY_SIZE;

const BATCH_ITEM: u32 = 0x42000F;

const OBJECT_TYPE: u32 = 0x420057;

const OPERATION: u32 = 0x42005C;

const REQUEST_HEADER: u32 = 0x420077;

const REQUEST_MESSAGE: u32 = 0x420078;

const REQUEST_PAYLOAD: u32 = 0x420079;

const SYMMETRIC_KEY: u32 = 0x42008F;

const UNIQUE_IDENTIFIER: u32 = 0x420094;

const ATTRIBUTES: u32 = 0x420125;

const IMPORT: usize = 0x2A;

const A_SYMMETRIC_KEY: usize = 0x02;

// What a message brings.
#[derive(Clone, Copy)]
pub(crate) struct Load<'a> {
    pub uid: &'a [u8],
    pub key: &'a [u8; KEY_SIZE],
}

// Request Payload: Unique Identifier, Object Type, Attributes, Symmetric Key.
fn payload(run: Run<'_>, slot: Slot) -> Option<Load<'_>>
    ensures { let items = items_of run.entry in
        GivesIf (payload_good slot.namespace slot.tag items) shown (brought_by items) result }
{
    let (uid, rest) = value(run, UNIQUE_IDENTIFIER, TEXT)?;
    let rest = numbered(rest, OBJECT_TYPE, NumberType::Enumeration, A_SYMMETRIC_KEY)?;
    let (members, rest) = structure(rest, ATTRIBUTES)?;
    let parameters = attributes(members, slot)?;
    let (members, _) = structure(rest, SYMMETRIC_KEY)?;
    let (block, key) = symmetric(members)?;
    aes(parameters, block).then_some(Load { uid, key })
}

// Batch Item: Operation Import, Request Payload.
fn batch(run: Run<'_>, slot: Slot) -> Option<Load<'_>>
    ensures { let items = items_of run.entry in
        GivesIf (in_order (batch_item slot.namespace slot.tag) items) shown (brought_by (payload_of items)) result }
{
    let rest = numbered(run, OPERATION, NumberType::Enumeration, IMPORT)?;
    let (members, _) = structure(rest, REQUEST_PAYLOAD)?;
    payload(members, slot)
}

// Request Message: Request Header, Batch Item.
fn message(run: Run<'_>, slot: Slot) -> Option<Load<'_>>
    ensures { let items = items_of run.entry in
        GivesIf (in_order (request_message slot.namespace slot.tag) items) shown
        (brought_by (payload_of (members_of (from BatchItem (behind_of (from RequestHeader items)))))) result }
{
    let (members, rest) = structure(run, REQUEST_HEADER)?;
    if !header(members) {
        return None;
    }
    let (members, _) = structure(rest, BATCH_ITEM)?;
    batch(members, slot)
}

// Exactly one outermost item, Request Message.
pub(crate) fn request(bytes: &[u8], slot: Slot) -> Option<Load<'_>>
    ensures { loaded result ≡ load_of slot.namespace slot.tag bytes.now }
{
    let mut run = run_of(bytes)?;
    let item = run.next()?;
    match item.body {
        Body::Structure(members) if item.tag == REQUEST_MESSAGE && run.next().is_none() => message(
            members, slot,
        ),
        _ => None,
    }
}
