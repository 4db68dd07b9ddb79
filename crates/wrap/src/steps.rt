// The 24 steps, each on A and one of the four blocks behind it. Of the 40 bytes the first 8 are A.
ghost use Rattle.std.specs.Prelude.{◌≡◌, ◌≤◌};
ghost use Rattle.rules.specs.Numbers.{key_size};
ghost use Rattle.fips197.specs.Boxes.{sbox, inv_sbox};
ghost use Rattle.aes.specs.declared.Block.{Block as BlockOf};
ghost use Rattle.aes.specs.Tables.{mix_table, inv_mix_table};
ghost use Rattle.aes.specs.ByTables.{cipher_by, inv_cipher_by};
ghost use Rattle.wrap.specs.Steps.{block_at, put_block, counted as countedOf, start_of, Computes, wrap_steps_by, unwrap_steps_by};

use crate::VALUE_SIZE;
use aes::{Block, SCHEDULE};
use rules::{KEY_SIZE, WRAPPED_SIZE};

const STEPS: u32 = 24;

// A and the block that begins at `at`.
fn block_at(bytes: &[u8; WRAPPED_SIZE], at: usize) -> Block
    requires { at ≤ key_size }
    ensures { result ≡ block_at at bytes.now }
{
    Block {
        a: aes::word_at(bytes, 0),
        b: aes::word_at(bytes, 4),
        c: aes::word_at(bytes, at),
        d: aes::word_at(bytes, at + 4),
    }
}

fn put_block(bytes: &mut [u8; WRAPPED_SIZE], at: usize, x: Block)
    requires { at ≤ key_size }
    ensures { bytes.new ≡ put_block at x bytes.old }
{
    aes::put_word(bytes, at, x.c);
    aes::put_word(bytes, at + 4, x.d);
    aes::put_word(bytes, 0, x.a);
    aes::put_word(bytes, 4, x.b);
}

fn counted(t: u32, x: Block) -> Block
    ensures { result ≡ countedOf t x }
{
    Block { b: x.b ^ t, ..x }
}

// Step t, on A and its block, by what `through` makes of the two.
fn step<F: FnOnce(Block) -> Block>(bytes: &mut [u8; WRAPPED_SIZE], t: u32, through: F)
    requires from_1 { 1 ≤ t }
    requires to_24 { t ≤ 24 }
    requires callable { F.IsAlwaysCallable through }
    ensures { (x : BlockOf) × F.post through (block_at (start_of t) bytes.old) x × (bytes.new ≡ put_block (start_of t) x bytes.old) }
{
    let at = ((t as usize - 1) % (KEY_SIZE / VALUE_SIZE) + 1) * VALUE_SIZE;
    put_block(bytes, at, through(block_at(bytes, at)));
}

fn wrap_steps<F: Fn(Block) -> Block>(cipher: F, bytes: &mut [u8; WRAPPED_SIZE])
    requires { F.IsAlwaysCallable cipher }
    ensures { (f : BlockOf → BlockOf) → Computes (F.post cipher) f → bytes.new ≡ wrap_steps_by f 24 bytes.old }
{
    for t in 1..=STEPS {
        step(bytes, t, |x| counted(t, cipher(x)));
    }
}

// (d) beside `wrap_steps`: the order and the place of the counter are all that either says
fn unwrap_steps<F: Fn(Block) -> Block>(inverse: F, bytes: &mut [u8; WRAPPED_SIZE])
    requires { F.IsAlwaysCallable inverse }
    ensures { (f : BlockOf → BlockOf) → Computes (F.post inverse) f → bytes.new ≡ unwrap_steps_by f 24 bytes.old }
{
    for t in (1..=STEPS).rev() {
        step(bytes, t, |x| inverse(counted(t, x)));
    }
}

// All of them, with the tables of the cipher, made once.
pub(crate) fn wrap_all(w: &[u32; SCHEDULE], bytes: &mut [u8; WRAPPED_SIZE])
    ensures { bytes.new ≡ wrap_steps_by (cipher_by mix_table sbox w.now) 24 bytes.old }
{
    let table = aes::mix_table();
    let sub = aes::sub_table();
    wrap_steps(|x| aes::cipher_by(&table, &sub, w, x), bytes);
}

pub(crate) fn unwrap_all(w: &[u32; SCHEDULE], bytes: &mut [u8; WRAPPED_SIZE])
    ensures { bytes.new ≡ unwrap_steps_by (inv_cipher_by inv_mix_table inv_sbox w.now) 24 bytes.old }
{
    let table = aes::inv_mix_table();
    let sub = aes::inv_sub_table();
    unwrap_steps(|x| aes::inv_cipher_by(&table, &sub, w, x), bytes);
}
