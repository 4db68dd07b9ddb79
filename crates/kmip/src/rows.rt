// Rows of the profile's tables, and the tables that hold numbers alone: each required member is the first of its tag behind the one before
// it.
ghost use Rattle.std.specs.Prelude.{◌≡◌};
ghost use Rattle.cells.specs.Predicates.{same};
ghost use Rattle.rules.specs.Ttlv.{Integer, Text};
ghost use Rattle.rules.specs.Kmip.{in_order, has, ◌is_a◌with◌, is, two_or_more, protocol_version, request_header, ProtocolVersionMajor};
ghost use Rattle.kmip.specs.Runs.{items_of, type_of, FoundNumber, Row};

use crate::members::{TEXT, structure, value};
use crate::run::Run;

const BATCH_COUNT: u32 = 0x42000D;

const PROTOCOL_VERSION: u32 = 0x420069;

const PROTOCOL_VERSION_MAJOR: u32 = 0x42006A;

const PROTOCOL_VERSION_MINOR: u32 = 0x42006B;

// As signed numbers, those from this one on are negative.
const NEGATIVE: u32 = 0x80000000;

// The types of a value that is a number.
#[derive(Clone, Copy)]
pub(crate) enum NumberType {
    Integer = 0x02,
    Enumeration = 0x05,
}

impl NumberType {
    fn code(self) -> u8
        ensures { result ≡ type_of self }
    {
        self as u8
    }
}

// The first item with this tag, if it is a number of this type: the number, and the run behind it.
fn number(run: Run<'_>, tag: u32, kind: NumberType) -> Option<(u32, Run<'_>)>
    ensures { FoundNumber tag (type_of kind) (items_of run.entry) result }
{
    let (bytes, behind) = value(run, tag, kind.code())?;
    let bytes = <[u8; 4]>::try_from(bytes).ok()?;
    Some((u32::from_be_bytes(bytes), behind))
}

// The run behind the integer or enumeration of this tag, if it is this number.
pub(crate) fn numbered(run: Run<'_>, tag: u32, kind: NumberType, n: usize) -> Option<Run<'_>>
    ensures { Row (tag is_a (type_of kind) with is n) (items_of run.entry) result }
{
    let (number, behind) = number(run, tag, kind)?;
    (number as usize == n).then_some(behind)
}

// Whether a text of this tag has these bytes.
pub(crate) fn worded(run: Run<'_>, tag: u32, text: &[u8]) -> bool
    ensures { result ≡ has (tag is_a Text with (λ name. same name text.now)) (items_of run.entry) }
{
    value(run, tag, TEXT).is_some_and(|(name, _)| name == text)
}

// The run behind Protocol Version Major, if that is 2 or more, as a signed number.
fn major(run: Run<'_>) -> Option<Run<'_>>
    ensures { Row (ProtocolVersionMajor is_a Integer with two_or_more) (items_of run.entry) result }
{
    let (number, behind) = number(run, PROTOCOL_VERSION_MAJOR, NumberType::Integer)?;
    (2..NEGATIVE).contains(&number).then_some(behind)
}

fn version(run: Run<'_>) -> bool
    ensures { result ≡ in_order protocol_version (items_of run.entry) }
{
    major(run).is_some_and(|rest| number(
        rest,
        PROTOCOL_VERSION_MINOR,
        NumberType::Integer,
    ).is_some())
}

// Request Header: Protocol Version, Batch Count 1.
pub(crate) fn header(run: Run<'_>) -> bool
    ensures { result ≡ in_order request_header (items_of run.entry) }
{
    structure(run, PROTOCOL_VERSION).is_some_and(|(members, rest)| {
        version(members) && numbered(rest, BATCH_COUNT, NumberType::Integer, 1).is_some()
    })
}
