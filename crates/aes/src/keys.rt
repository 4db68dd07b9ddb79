// The round keys: the expansion of a key, and the words mixed back for the inverse.
ghost use Rattle.std.specs.Prelude.{◌≡◌, ◌++◌, ◌≤◌, ◌<◌, take, drop};
ghost use Rattle.rules.specs.Aes.{schedule_words};
ghost use Rattle.aes.specs.ByTables.{words_of, sub_word_by, turned_by, expanded_by, unmixed_word, unmixed_by};

use crate::SCHEDULE;
use crate::columns::{BLOCK_WORDS, Tables, mixed, substituted};
use rules::KEY_SIZE;

const WORD_SIZE: usize = 4;

const KEY_WORDS: usize = KEY_SIZE / WORD_SIZE;

const ROUND_CONSTANTS: [u8; 10] = *b"\x01\x02\x04\x08\x10\x20\x40\x80\x1B\x36";

fn sub_word(sub: &[u8; 256], w: u32) -> u32
    ensures { result ≡ sub_word_by sub.now w }
{
    u32::from_be_bytes(substituted(sub, w.to_be_bytes()))
}

// What word i - 8 is added to, made of word i - 1.
fn turned(sub: &[u8; 256], i: usize, temp: u32) -> u32
    requires { (8 ≤ i) × (i < schedule_words) }
    ensures { result ≡ turned_by sub.now i temp }
{
    match i % KEY_WORDS {
        0 => {
            let constant = u32::from_be_bytes([ROUND_CONSTANTS[i / KEY_WORDS - 1], 0, 0, 0]);
            sub_word(sub, temp.rotate_left(8)) ^ constant
        }
        4 => sub_word(sub, temp),
        _ => temp,
    }
}

// The key's own words, at the front.
pub(crate) fn first_words(key: &[u8; KEY_SIZE], w: &mut [u32; SCHEDULE])
    ensures { w.new ≡ words_of key.now 8 ++ drop 8 w.old }
{
    let (words, _) = key.as_chunks::<WORD_SIZE>();
    // (c) of `w.iter_mut().zip(words)` a proof knows only the length of w behind the loop
    for (i, bytes) in words.iter().enumerate() {
        w[i] = u32::from_be_bytes(*bytes);
    }
}

// The 52 words behind them.
pub(crate) fn next_words(sub: &[u8; 256], w: &mut [u32; SCHEDULE])
    ensures { w.new ≡ expanded_by sub.now (take 8 w.old) 52 }
{
    for i in KEY_WORDS..SCHEDULE {
        w[i] = w[i - KEY_WORDS] ^ turned(sub, i, w[i - 1]);
    }
}

// A word mixed: the substitution before the look-up undoes the one in the table.
fn unmixed(tables: &Tables, w: u32) -> u32
    ensures { result ≡ unmixed_word tables.now.mix.now tables.now.sub.now w }
{
    mixed(tables.mix, substituted(tables.sub, w.to_be_bytes()))
}

// The words of rounds 1 to 13 mixed back.
pub(crate) fn unmix(tables: &Tables, w: &mut [u32; SCHEDULE])
    ensures { w.new ≡ unmixed_by tables.now.mix.now tables.now.sub.now w.old }
{
    for word in &mut w[BLOCK_WORDS..SCHEDULE - BLOCK_WORDS] {
        *word = unmixed(tables, *word);
    }
}
