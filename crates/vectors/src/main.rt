// The published vectors through the proved code: the 60 words of FIPS 197 A.3; C.3 and SP 800-38A F.1.5 both ways; RFC 3394 4.6 both ways, and
// a + for each of the 320 bits of its wrapped key that, flipped, is refused. The file `stdout` is typed from the standards.
#![tactic(auto)]

mod show;

use aes::{Block, SCHEDULE};
use rules::{KEK_SIZE, WRAPPED_SIZE};

// A.3's key, which F.1.5 has too; and bytes 00 to 1F, which C.3 and RFC 3394 have.
const NIST_KEY: [u8; KEK_SIZE] = *b"\
    \x60\x3D\xEB\x10\x15\xCA\x71\xBE\x2B\x73\xAE\xF0\x85\x7D\x77\x81\
    \x1F\x35\x2C\x07\x3B\x61\x08\xD7\x2D\x98\x10\xA3\x09\x14\xDF\xF4";

const COUNTED_KEY: [u8; KEK_SIZE] = *b"\
    \x00\x01\x02\x03\x04\x05\x06\x07\x08\x09\x0A\x0B\x0C\x0D\x0E\x0F\
    \x10\x11\x12\x13\x14\x15\x16\x17\x18\x19\x1A\x1B\x1C\x1D\x1E\x1F";

// RFC 3394 4.6: the key, behind eight bytes that do not count.
const KEY_TO_WRAP: [u8; WRAPPED_SIZE] = *b"\
    \x00\x00\x00\x00\x00\x00\x00\x00\
    \x00\x11\x22\x33\x44\x55\x66\x77\x88\x99\xAA\xBB\xCC\xDD\xEE\xFF\
    \x00\x01\x02\x03\x04\x05\x06\x07\x08\x09\x0A\x0B\x0C\x0D\x0E\x0F";

// (d) Printer and words go side by side here: `show` takes the one, the ciphers the other.
fn schedule(rt: &impl Print, words: &mut [u32; SCHEDULE]) {
    aes::expand(&NIST_KEY, words);
    for w in words.iter() {
        show::word(rt, *w);
        show::text(rt, "\n");
    }
}

// A block under a key, and back.
fn both_ways(rt: &impl Print, key: &[u8], words: &mut [u32; SCHEDULE], block: Block) {
    let coded = aes::cipher(key, words, block);
    show::block(rt, coded);
    show::text(rt, " ");
    show::block(rt, aes::inv_cipher(key, words, coded));
    show::text(rt, "\n");
}

const fn block_of(a: u32, b: u32, c: u32, d: u32) -> Block {
    Block { a, b, c, d }
}

fn blocks(rt: &impl Print, words: &mut [u32; SCHEDULE]) {
    let counted = block_of(0x00112233, 0x44556677, 0x8899AABB, 0xCCDDEEFF);
    both_ways(rt, &COUNTED_KEY, words, counted);
    let nist = [
        block_of(0x6BC1BEE2, 0x2E409F96, 0xE93D7E11, 0x7393172A),
        block_of(0xAE2D8A57, 0x1E03AC9C, 0x9EB76FAC, 0x45AF8E51),
        block_of(0x30C81C46, 0xA35CE411, 0xE5FBC119, 0x1A0A52EF),
        block_of(0xF69F2445, 0xDF4F9B17, 0xAD2B417B, 0xE66C3710),
    ];
    for block in nist {
        both_ways(rt, &NIST_KEY, words, block);
    }
}

fn flip(bytes: &mut [u8], at: usize, bit: u8) {
    if let Some(b) = bytes.get_mut(at) {
        *b ^= bit;
    }
}

// Whether the wrapped key, with one bit of one byte flipped, is refused.
fn flipped(words: &mut [u32; SCHEDULE], at: usize, bit: u8) -> bool {
    let mut bytes = KEY_TO_WRAP;
    wrap::wrap(&COUNTED_KEY, &mut bytes, words);
    flip(&mut bytes, at, bit);
    !wrap::unwrap(&COUNTED_KEY, &mut bytes, words)
}

// A sign for each of a byte's eight bits.
fn of_byte(rt: &impl Print, words: &mut [u32; SCHEDULE], at: usize) {
    for bit in [1, 2, 4, 8, 16, 32, 64, 128] {
        show::refused(rt, flipped(words, at, bit));
    }
}

fn flips(rt: &impl Print, words: &mut [u32; SCHEDULE]) {
    for at in 0..WRAPPED_SIZE {
        of_byte(rt, words, at);
    }
    show::text(rt, "\n");
}

fn wrapped(rt: &impl Print, words: &mut [u32; SCHEDULE]) {
    let mut bytes = KEY_TO_WRAP;
    wrap::wrap(&COUNTED_KEY, &mut bytes, words);
    show::bytes(rt, &bytes);
    if wrap::unwrap(&COUNTED_KEY, &mut bytes, words) {
        show::bytes(rt, &bytes);
    }
}

fn main(rt: HostRuntime) {
    let mut words = [0u32; SCHEDULE];
    schedule(&rt, &mut words);
    blocks(&rt, &mut words);
    wrapped(&rt, &mut words);
    flips(&rt, &mut words);
}
