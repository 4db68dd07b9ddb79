// The steps of a round, a column at a time.
ghost use Rattle.std.specs.Prelude.{◌≡◌, ℕ, ◌≤◌};
ghost use Rattle.std.specs.Int.{w32, from_be_bytes};
ghost use Rattle.aes.specs.ByTables.{diagonal as diagonalOf, column_of, substituted_of};
ghost use Rattle.aes.specs.ByTables.{added, mirrored as mirroredOf, round_of, last_of, key_at, Gives, rounds_with, ciphered};

use crate::{Block, SCHEDULE};
use std::ops::BitXor;

// Words of a block, and so of a round key.
pub(crate) const BLOCK_WORDS: usize = 4;

// The round that does not mix.
pub(crate) const LAST_ROUND: usize = 14;

// What a column is made of: the first byte of a, the second of b, the third of c and the last of d.
fn diagonal(a: u32, b: u32, c: u32, d: u32) -> [u8; 4]
    ensures { result ≡ diagonalOf a b c d }
{
    let [x, ..] = a.to_be_bytes();
    let [_, y, ..] = b.to_be_bytes();
    let [.., z, _] = c.to_be_bytes();
    let [.., t] = d.to_be_bytes();
    [x, y, z, t]
}

// A mixed column: each byte looked up, and turned to its row.
pub(crate) fn mixed(table: &[u32; 256], bytes: [u8; 4]) -> u32
    ensures { (a b c d : ℕ) → bytes ≡ diagonalOf a b c d → result ≡ column_of table.now a b c d }
{
    let [x, y, z, t] = bytes;
    let front = table[usize::from(x)] ^ table[usize::from(y)].rotate_right(8);
    let back = table[usize::from(z)].rotate_right(16) ^ table[usize::from(t)].rotate_right(24);
    front ^ back
}

// The same bytes substituted alone.
pub(crate) fn substituted(sub: &[u8; 256], bytes: [u8; 4]) -> [u8; 4]
    ensures { (a b c d : ℕ) → bytes ≡ diagonalOf a b c d → from_be_bytes w32 result ≡ substituted_of sub.now a b c d }
{
    let [x, y, z, t] = bytes;
    [
        sub[usize::from(x)],
        sub[usize::from(y)],
        sub[usize::from(z)],
        sub[usize::from(t)],
    ]
}

impl BitXor for Block {
    type Output = Block;

    ghost bitxor_gives = { λ s k r. r ≡ added s k };

    fn bitxor(self, key: Block) -> Block {
        Block {
            a: self.a ^ key.a,
            b: self.b ^ key.b,
            c: self.c ^ key.c,
            d: self.d ^ key.d,
        }
    }
}

impl Block {
    // The second and the last column change places.
    pub(crate) fn mirrored(self) -> Block
        ensures { result ≡ mirroredOf self }
    {
        Block {
            a: self.a,
            b: self.d,
            c: self.c,
            d: self.b,
        }
    }

    // Each column made of a diagonal: a byte of each column, from one place on.
    // (c) the four words go to `column` one by one, since no clause is inferred for a closure that takes a `[u8; 4]`
    fn by_diagonals<F: Fn(u32, u32, u32, u32) -> u32>(self, column: F) -> Block
        requires { F.IsAlwaysCallable column }
        ensures a { F.post column self.a self.b self.c self.d result.a }
        ensures b { F.post column self.b self.c self.d self.a result.b }
        ensures c { F.post column self.c self.d self.a self.b result.c }
        ensures d { F.post column self.d self.a self.b self.c result.d }
    {
        let Block { a, b, c, d } = self;
        Block {
            a: column(a, b, c, d),
            b: column(b, c, d, a),
            c: column(c, d, a, b),
            d: column(d, a, b, c),
        }
    }
}

// The tables of one direction, lent: what the substitution of a byte adds to a mixed column, and the substitution alone.
#[derive(Clone, Copy)]
pub(crate) struct Tables<'a> {
    pub(crate) mix: &'a [u32; 256],
    pub(crate) sub: &'a [u8; 256],
}

impl Tables<'_> {
    fn round(&self, s: Block, key: Block) -> Block
        ensures { result ≡ round_of self.now.mix.now s key }
    {
        s.by_diagonals(|a, b, c, d| mixed(self.mix, diagonal(a, b, c, d))) ^ key
    }

    // The last round does not mix.
    fn last(&self, s: Block, key: Block) -> Block
        ensures { result ≡ last_of self.now.sub.now s key }
    {
        s.by_diagonals(|a, b, c, d| u32::from_be_bytes(substituted(self.sub, diagonal(a, b, c, d))))
            ^ key
    }

    // The cipher under the round keys that `key` gives.
    pub(crate) fn cipher<F: Fn(usize) -> Block>(&self, key: F, block: Block) -> Block
        requires { (r : ℕ) → r ≤ 14 → F.pre key r }
        ensures { (k : ℕ → Block) → Gives (F.post key) k → result ≡ ciphered self.now.mix.now self.now.sub.now k block }
    {
        let mut s = block ^ key(0);
        for r in 1..LAST_ROUND {
            s = self.round(s, key(r));
        }
        self.last(s, key(LAST_ROUND))
    }
}

// The round key of round r. (d) A pattern and `Block { .. }` say what a `From<[u32; 4]>` would.
pub(crate) fn key_at(w: &[u32; SCHEDULE], r: usize) -> Block
    requires { r ≤ 14 }
    ensures { result ≡ key_at w.now r }
{
    let (keys, _) = w.as_chunks::<BLOCK_WORDS>();
    let [a, b, c, d] = keys[r];
    Block { a, b, c, d }
}
