// Attributes: in any order. Every Attribute is the vendor's; the first named NamespaceID and the first named KeyTag have to be the slot's.
ghost use Rattle.std.specs.Prelude.{◌≡◌, MatchOption};
ghost use Rattle.rules.specs.Ttlv.{Integer, Enumeration, end};
ghost use Rattle.rules.specs.Kmip.{from, has, members_of, ◌is_a◌with◌, ◌holds◌, is, vendored as isVendored, each_vendored as eachIsVendored};
ghost use Rattle.rules.specs.Kmip.{named as firstNamed, attributes as attributesGood, AttributeValue, CryptographicParameters, KeyRoleType, DEK};
ghost use Rattle.kmip.specs.Runs.{items_of, GivesIf};

use crate::Slot;
use crate::members::{Body, TEXT, structure, value};
use crate::rows::{NumberType, numbered, worded};
use crate::run::Run;

const ATTRIBUTE: u32 = 0x420008;

const ATTRIBUTE_NAME: u32 = 0x42000A;

const ATTRIBUTE_VALUE: u32 = 0x42000B;

const CRYPTOGRAPHIC_PARAMETERS: u32 = 0x42002B;

const KEY_ROLE_TYPE: u32 = 0x420083;

const VENDOR_IDENTIFICATION: u32 = 0x42009D;

const ROLE_DEK: usize = 0x03;

// Vendor Identification TCG-SWG, and an Attribute Name other than UID.
fn vendored(attribute: Run<'_>) -> bool
    ensures { result ≡ isVendored (items_of attribute.entry) }
{
    worded(attribute, VENDOR_IDENTIFICATION, b"TCG-SWG")
        && value(attribute, ATTRIBUTE_NAME, TEXT).is_some_and(|(name, _)| name != b"UID".as_slice())
}

// Whether every Attribute is so.
fn each_vendored(mut run: Run<'_>) -> bool
    ensures { result ≡ eachIsVendored (items_of run.entry) }
{
    run.all(|item| {
        item.tag != ATTRIBUTE
            || matches!(item.body, Body::Structure(attribute) if vendored(attribute))
    })
}

// The first Attribute of this name.
fn named<'a>(mut run: Run<'a>, name: &[u8]) -> Option<Run<'a>>
    ensures { let members = firstNamed name.now (items_of run.entry) in
        MatchOption result (members ≡ end) (λ attribute. members ≡ items_of attribute) }
{
    run.find_map(|item| match item.body {
        Body::Structure(attribute)
            if item.tag == ATTRIBUTE && worded(attribute, ATTRIBUTE_NAME, name) => Some(attribute),
        _ => None,
    })
}

// Whether the first Attribute of this name has this number as its value.
fn valued(run: Run<'_>, name: &[u8], n: usize) -> bool
    ensures { result ≡ has (AttributeValue is_a Integer with is n) (firstNamed name.now (items_of run.entry)) }
{
    named(run, name).is_some_and(|attribute| {
        numbered(attribute, ATTRIBUTE_VALUE, NumberType::Integer, n).is_some()
    })
}

// The members of Cryptographic Parameters with the role of a media key.
fn parameters(run: Run<'_>) -> Option<Run<'_>>
    ensures { let items = items_of run.entry in
        GivesIf (has (CryptographicParameters holds has (KeyRoleType is_a Enumeration with is DEK)) items)
        (λ parameters. items_of parameters) (members_of (from CryptographicParameters items)) result }
{
    let (parameters, _) = structure(run, CRYPTOGRAPHIC_PARAMETERS)?;
    numbered(parameters, KEY_ROLE_TYPE, NumberType::Enumeration, ROLE_DEK)?;
    Some(parameters)
}

// The members of Cryptographic Parameters, if all else is well too.
pub(crate) fn attributes(run: Run<'_>, slot: Slot) -> Option<Run<'_>>
    ensures { let items = items_of run.entry in
        GivesIf (attributesGood slot.namespace slot.tag items)
        (λ parameters. items_of parameters) (members_of (from CryptographicParameters items)) result }
{
    let parameters = parameters(run)?;
    (each_vendored(run)
        && valued(run, b"NamespaceID", slot.namespace)
        && valued(run, b"KeyTag", slot.tag)).then_some(parameters)
}
