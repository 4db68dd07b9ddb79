// AES-256 (FIPS 197) on one block, a column at a time: the substitution and the mixing of a byte are one look-up in a table of words. A
// constant array is made anew wherever it is named, so that whoever does many blocks makes the tables once and lends them; a contract then
// says what is done with whatever is lent. A look-up's time may depend on the byte (docs/KEYWRAP.md).
#![tactic(auto)]

ghost use Rattle.std.specs.Prelude.{◌≡◌, List, ℕ, cond, eqb, length};
ghost use Rattle.std.specs.Fn.{FnOnceReturnsAtMut};
ghost use Rattle.cells.specs.Cells.{within, write, zeros};
ghost use Rattle.rules.specs.Fields.{four_bytes};
ghost use Rattle.rules.specs.Aes.{cipher_key_size, schedule_words, cipher as cipherOf, inv_cipher};
ghost use Rattle.fips197.specs.Boxes.{sbox, inv_sbox};
ghost use Rattle.aes.specs.Words.{word_at, block_of, bytes_of};
ghost use Rattle.aes.specs.Tables.{mix_table, inv_mix_table};
ghost use Rattle.aes.specs.ByTables.{words_of, expanded_by, unmixed_by, cipher_by, inv_cipher_by};

mod columns;
mod keys;
mod tables;

use columns::{LAST_ROUND, Tables, key_at};
use rules::KEY_SIZE;

// Four words: the columns of a state.
#[derive(Clone, Copy)]
pub struct Block {
    pub a: u32,
    pub b: u32,
    pub c: u32,
    pub d: u32,
}

// Words of a key's round keys.
pub const SCHEDULE: usize = 60;

// The substitution, its inverse, and both with the mixing.
// (a) four functions: the record `Defined` of `promises`, and a theorem `Tight-aes-..` for each, have them by name
pub fn sub_table() -> [u8; 256]
    ensures { result ≡ sbox }
{
    tables::SUB
}

pub fn inv_sub_table() -> [u8; 256]
    ensures { result ≡ inv_sbox }
{
    tables::INV_SUB
}

pub fn mix_table() -> [u32; 256]
    ensures { result ≡ mix_table }
{
    tables::MIX
}

pub fn inv_mix_table() -> [u32; 256]
    ensures { result ≡ inv_mix_table }
{
    tables::INV_MIX
}

// Four bytes as a word, where they are there.
pub fn word_at(bytes: &[u8], at: usize) -> u32
    ensures { result ≡ cond (within at 4 bytes.now) (word_at bytes.now at) 0 }
{
    match bytes.get(at..) {
        Some([a, b, c, d, ..]) => u32::from_be_bytes([*a, *b, *c, *d]),
        _ => 0,
    }
}

// A word as four bytes, where there is room.
pub fn put_word(bytes: &mut [u8], at: usize, w: u32)
    ensures { bytes.new ≡ cond (within at 4 bytes.old) (write at 4 (four_bytes w) bytes.old) bytes.old }
{
    let word = w.to_be_bytes();
    if at <= bytes.len() && word.len() <= bytes.len() - at {
        bytes[at..at + word.len()].copy_from_slice(&word);
    }
}

// The key expansion, of a key of 32 bytes; any other leaves the words alone.
pub fn expand(key: &[u8], w: &mut [u32; SCHEDULE])
    ensures { w.new ≡ cond (eqb (length key.now) cipher_key_size)
        (expanded_by sbox (words_of key.now 8) 52) w.old }
{
    if let Some(key) = key.as_array() {
        keys::first_words(key, w);
        keys::next_words(&sub_table(), w);
    }
}

// The round keys of rounds 1 to 13 mixed back, for the inverse.
pub fn unmix(w: &mut [u32; SCHEDULE])
    ensures { w.new ≡ unmixed_by inv_mix_table sbox w.old }
{
    let tables = Tables {
        mix: &inv_mix_table(),
        sub: &sub_table(),
    };
    keys::unmix(&tables, w);
}

pub fn wipe(w: &mut [u32; SCHEDULE])
    ensures { w.new ≡ zeros schedule_words }
{
    w.fill(0);
}

// The cipher over lent tables and round keys. (a) They go apart, here and in the inverse: `promises` `Tight-aes-cipher-by` has them so.
pub fn cipher_by(table: &[u32; 256], sub: &[u8; 256], w: &[u32; SCHEDULE], block: Block) -> Block
    ensures { result ≡ cipher_by table.now sub.now w.now block }
{
    let tables = Tables { mix: table, sub };
    tables.cipher(|r| key_at(w, r), block)
}

// Its inverse, over round keys mixed back, is the cipher once more: with the columns mirrored, and the round keys from the last to the first.
pub fn inv_cipher_by(
    table: &[u32; 256],
    sub: &[u8; 256],
    w: &[u32; SCHEDULE],
    block: Block,
) -> Block
    ensures { result ≡ inv_cipher_by table.now sub.now w.now block }
{
    let tables = Tables { mix: table, sub };
    let told = tables.cipher(|r| key_at(w, LAST_ROUND - r).mirrored(), block.mirrored());
    told.mirrored()
}

// What `run` makes of the round keys of a key of 32 bytes; under any other the block stays. The round keys are wiped.
fn keyed<F: FnOnce(&mut [u32; SCHEDULE]) -> Block>(
    key: &[u8],
    w: &mut [u32; SCHEDULE],
    block: Block,
    run: F,
) -> Block
    requires { F.IsAlwaysCallable run }
    ensures told { length key.now ≡ cipher_key_size → (left : List ℕ)
        × FnOnceReturnsAtMut F.FnOnce run (expanded_by sbox (words_of key.now 8) 52) result left }
    ensures other { (length key.now ≡ cipher_key_size → ⊥) → result ≡ block }
    ensures wiped { w.new ≡ zeros schedule_words }
{
    if key.len() != KEY_SIZE {
        wipe(w);
        return block;
    }
    expand(key, w);
    let told = run(w);
    wipe(w);
    told
}

// FIPS 197's cipher under a key of 32 bytes; under any other a block stays. The round keys go through words that are lent, and wiped.
pub fn cipher(key: &[u8], w: &mut [u32; SCHEDULE], block: Block) -> Block
    ensures { (result ≡ cond (eqb (length key.now) cipher_key_size) (block_of (cipherOf key.now (bytes_of block))) block)
        × (w.new ≡ zeros schedule_words) }
{
    keyed(
        key,
        w,
        block,
        |w| cipher_by(&mix_table(), &sub_table(), w, block),
    )
}

pub fn inv_cipher(key: &[u8], w: &mut [u32; SCHEDULE], block: Block) -> Block
    ensures { (result ≡ cond (eqb (length key.now) cipher_key_size) (block_of (inv_cipher key.now (bytes_of block))) block)
        × (w.new ≡ zeros schedule_words) }
{
    keyed(key, w, block, |w| {
        unmix(w);
        inv_cipher_by(&inv_mix_table(), &inv_sub_table(), w, block)
    })
}
