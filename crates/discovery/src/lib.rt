// Level 0 Discovery: the writer of a response, for any fields, and the reader that a host uses, for any bytes. Every public function is
// total.
#![tactic(auto)]

ghost use Rattle.std.specs.Prelude.{◌≡◌};
ghost use Rattle.rules.specs.Discovery.{own_fields};
ghost use Rattle.rules.specs.Discovering.{respond, discovered};

mod finding;
mod own;
mod reading;
mod writing;

use rules::{
    Answer, DISCOVERY_SIZE, Discovered, DiscoveryFields, Granted, HEADER_SIZE, LENGTH_SIZE,
    Refusal, TPER_SIZE,
};

// The two features that we look for, the first of each.
#[derive(Clone, Copy)]
pub(crate) struct Found<'a> {
    pub tper: Option<&'a [u8]>,
    pub key_per_io: Option<&'a [u8]>,
}

const TPER_AT: usize = HEADER_SIZE;

const KEY_PER_IO_AT: usize = HEADER_SIZE + TPER_SIZE;

// What the drive says of itself.
#[tactic(auto, unfolding(rules::specs::Discovery::own_fields))]
pub fn own_fields() -> DiscoveryFields
    ensures { result ≡ own_fields }
{
    DiscoveryFields {
        header: own::header(),
        tper: own::tper(),
        key_per_io: own::key_per_io(),
    }
}

// The response goes to the front of the output; an output that is too short stays.
#[tactic(auto, unfolding(rules::specs::Discovering::respond))]
pub fn write(fields: DiscoveryFields, out: &mut [u8]) -> Answer
    ensures { record { answer = result; out = out.new } ≡ respond fields out.old }
{
    if out.len() < DISCOVERY_SIZE {
        return Err(Refusal::OutputTooShort);
    }
    out[..TPER_AT].copy_from_slice(&writing::header_bytes(fields.header));
    out[TPER_AT..KEY_PER_IO_AT].copy_from_slice(&writing::tper_bytes(fields.tper));
    out[KEY_PER_IO_AT..DISCOVERY_SIZE].copy_from_slice(&writing::key_per_io_bytes(
        fields.key_per_io,
    ));
    Ok(Granted::Done)
}

// What a host finds in any bytes. The length is a number of 32 bits, so that its end does not wrap in 64.
#[tactic(auto, unfolding(rules::specs::Discovering::discovered, rules::specs::Discovering::found_in))]
pub fn read(bytes: &[u8]) -> Result<Discovered, Refusal>
    ensures { result ≡ discovered bytes.now }
{
    let Some(header) = bytes.first_chunk::<HEADER_SIZE>() else {
        return Err(Refusal::NotAResponse);
    };
    let end = LENGTH_SIZE + reading::dword(header, 0) as usize;
    let Some(features) = bytes.get(HEADER_SIZE..end) else {
        return Err(Refusal::NotAResponse);
    };
    let found = finding::find(features)?;
    Ok(Discovered {
        header: reading::header(header),
        tper: found.tper.and_then(reading::tper),
        key_per_io: found.key_per_io.and_then(reading::key_per_io),
    })
}
