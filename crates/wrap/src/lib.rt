// AES key wrap (RFC 3394) of keys of 32 bytes under keys of 32 bytes, in place. The round keys go through words that are lent, and wiped.
#![tactic(auto)]

ghost use Rattle.std.specs.Prelude.{◌≡◌};
ghost use Rattle.cells.specs.Cells.{zeros};
ghost use Rattle.rules.specs.Aes.{schedule_words};
ghost use Rattle.rules.specs.KeyWrap.{checked};
ghost use Rattle.wrap.specs.Wrapping.{wrapped_in, told, opened_in};

use aes::SCHEDULE;
use rules::{KEK_SIZE, WRAPPED_SIZE};

mod steps;

// Bytes of the integrity value, before the key.
pub const VALUE_SIZE: usize = 8;

const INITIAL_VALUE: u64 = 0xA6A6_A6A6_A6A6_A6A6;

// Wraps the key that the last 32 of 40 bytes hold; where a size is wrong, nothing.
pub fn wrap(kek: &[u8], bytes: &mut [u8], w: &mut [u32; SCHEDULE])
    ensures { (bytes.new ≡ wrapped_in kek.now bytes.old) × (w.new ≡ zeros schedule_words) }
{
    seal(kek, bytes, w);
    aes::wipe(w);
}

// Whether the 40 bytes are a wrapped key. If they are, the key comes to stand in the last 32; if not, all become zero. (d) A `bool`, as
// the definition `opened_in` has it: a `Result` of nothing and nothing would say no more.
pub fn unwrap(kek: &[u8], bytes: &mut [u8], w: &mut [u32; SCHEDULE]) -> bool
    ensures { (record { opened = result; bytes = bytes.new } ≡ opened_in kek.now bytes.old) ×
        (w.new ≡ zeros schedule_words) }
{
    let opened = unseal(kek, bytes, w);
    aes::wipe(w);
    opened
}

// The integrity value at the front, then the steps; the round keys stay in the words.
fn seal(kek: &[u8], bytes: &mut [u8], w: &mut [u32; SCHEDULE])
    ensures { bytes.new ≡ wrapped_in kek.now bytes.old }
{
    if kek.len() != KEK_SIZE {
        return;
    }
    if let Some(bytes) = bytes.as_mut_array() {
        bytes[..VALUE_SIZE].copy_from_slice(&INITIAL_VALUE.to_be_bytes());
        aes::expand(kek, w);
        steps::wrap_all(w, bytes);
    }
}

// The steps back, then the integrity value is looked at.
// (d) beside `seal`: the two share the test of the sizes, and a closure for the rest would hide their steps
fn unseal(kek: &[u8], bytes: &mut [u8], w: &mut [u32; SCHEDULE]) -> bool
    ensures { record { opened = result; bytes = bytes.new } ≡ opened_in kek.now bytes.old }
{
    if kek.len() != KEK_SIZE {
        return false;
    }
    let Some(bytes) = bytes.as_mut_array() else {
        return false;
    };
    aes::expand(kek, w);
    aes::unmix(w);
    steps::unwrap_all(w, bytes);
    checked(bytes)
}

// Whether the integrity value came out, all of which is looked at whatever it is; if not, zeros.
fn checked(bytes: &mut [u8; WRAPPED_SIZE]) -> bool
    ensures { record { opened = result; bytes = bytes.new } ≡ told (checked bytes.old) }
{
    let opened = bytes
        .first_chunk()
        .is_some_and(|value| u64::from_be_bytes(*value) == INITIAL_VALUE);
    if !opened {
        bytes.fill(0);
    }
    opened
}
