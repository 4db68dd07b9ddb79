// The key: Symmetric Key, Key Block, Key Value and Key Material, and where its algorithm and length stand.
ghost use Rattle.std.specs.Prelude.{◌≡◌, List, ℕ, length, eqb};
ghost use Rattle.rules.specs.Ttlv.{Items, ByteString};
ghost use Rattle.rules.specs.Numbers.{key_size};
ghost use Rattle.rules.specs.Kmip.{from, has, members_of, bytes_of, ◌is_a◌with◌, ◌holds◌, key_block as keyBlockGood, stands_in as isStanding, aes256};
ghost use Rattle.rules.specs.Kmip.{KeyBlock, KeyMaterial, KeyValue};
ghost use Rattle.kmip.specs.Runs.{items_of, type_of, GivesIf};

use crate::members::{BYTE_STRING, absent, structure, value};
use crate::rows::{NumberType, numbered};
use crate::run::Run;
use rules::KEY_SIZE;

const CRYPTOGRAPHIC_ALGORITHM: u32 = 0x420028;

const CRYPTOGRAPHIC_LENGTH: u32 = 0x42002A;

const KEY_BLOCK: u32 = 0x420040;

const KEY_FORMAT_TYPE: u32 = 0x420042;

const KEY_MATERIAL: u32 = 0x420043;

const KEY_VALUE: u32 = 0x420045;

const RAW: usize = 0x01;

const ALGORITHM_AES: usize = 0x03;

const AES_BITS: usize = 256;

// Key Material: a byte string as long as a key.
fn material(run: Run<'_>) -> Option<&[u8; KEY_SIZE]>
    ensures { let items = items_of run.entry in
        GivesIf (has (KeyMaterial is_a ByteString with (λ key. eqb (length key) key_size)) items) (λ key. key.now)
        (bytes_of (from KeyMaterial items)) result }
{
    let (key, _) = value(run, KEY_MATERIAL, BYTE_STRING)?;
    key.try_into().ok()
}

// Key Block: Key Format Type Raw, and a Key Value, which holds Key Material.
fn key_block(run: Run<'_>) -> Option<&[u8; KEY_SIZE]>
    ensures { let items = items_of run.entry in
        GivesIf (keyBlockGood items) (λ key. key.now) (bytes_of (from KeyMaterial (members_of (from KeyValue items)))) result }
{
    numbered(run, KEY_FORMAT_TYPE, NumberType::Enumeration, RAW)?;
    let (members, _) = structure(run, KEY_VALUE)?;
    material(members)
}

// Symmetric Key holds Key Block: that block's members, and the key in it.
pub(crate) fn symmetric(run: Run<'_>) -> Option<(Run<'_>, &[u8; KEY_SIZE])>
    ensures { let items = items_of run.entry in
        let block = members_of (from KeyBlock items) in
        GivesIf {B = Items × List ℕ} (has (KeyBlock holds keyBlockGood) items) (λ p. (items_of p.0, p.1.now))
        (block, bytes_of (from KeyMaterial (members_of (from KeyValue block)))) result }
{
    let (block, _) = structure(run, KEY_BLOCK)?;
    let key = key_block(block)?;
    Some((block, key))
}

// Whether a number of this tag stands in the parameters or, if none stands there, in the Key Block.
fn stands_in(parameters: Run<'_>, block: Run<'_>, tag: u32, kind: NumberType, n: usize) -> bool
    ensures { result ≡ isStanding tag (type_of kind) n (items_of parameters.entry) (items_of block.entry) }
{
    let run = if absent(parameters, tag) {
        block
    } else {
        parameters
    };
    numbered(run, tag, kind, n).is_some()
}

// Algorithm AES and length 256.
pub(crate) fn aes(parameters: Run<'_>, block: Run<'_>) -> bool
    ensures { result ≡ aes256 (items_of parameters.entry) (items_of block.entry) }
{
    let standing = |tag, kind, n| stands_in(parameters, block, tag, kind, n);
    standing(
        CRYPTOGRAPHIC_ALGORITHM,
        NumberType::Enumeration,
        ALGORITHM_AES,
    ) && standing(CRYPTOGRAPHIC_LENGTH, NumberType::Integer, AES_BITS)
}
