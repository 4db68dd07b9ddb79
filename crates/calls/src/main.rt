// Calls the library once for each line of standard input, and writes a line on what the call left. An input line is
//     LABEL|FRAME                                          a call of answer_line, on the drive that the last call left;
//     LABEL|FRAME|STORE OUTPUT|N N N N|PLACE LENGTH OTHER|MISSING  the same, on a drive made for it; or
//     LABEL|start|STORE MISSING                            a call of start, on a cache and a store full of sevens.
// STORE and OUTPUT say how many bytes are lent, MISSING how many bytes of the cache are not; the four N are the tag counts. The made drive has a store full of
// sevens, both partitions Write Locked, and every slot empty but the one at PLACE of the cache: its byte at OTHER is 1,
// and then its first byte is set to LENGTH. Numbers are decimal, and those left off are 0.
#![tactic(auto)]

ghost use Rattle.std.specs.Prelude.{◌≤◌, length};

mod call;
mod made;
mod show;
mod text;

use rules::{CACHE_SIZE, DISCOVERY_MOST, Registers, STORE_SIZE};
use std::io::Read;

// The longest input; what is past it is not read.
const INPUT: usize = 32768;

// The longest store that is lent: one byte more than the library takes.
pub const MOST: usize = STORE_SIZE + 1;

// The longest output that is lent: some bytes more than the longest answer.
pub const ROOM: usize = DISCOVERY_MOST + 7;

pub type Cache = [u8; CACHE_SIZE];

pub type Marks = [u8; MOST];

// A drive to call, and how many bytes of the cache, of the store and of the output are lent to it.
#[derive(Clone, Copy)]
pub struct Setting {
    pub registers: Registers,
    pub cache: usize,
    pub store: usize,
    pub room: usize,
}

// One call of the library: answer_line, or start where the word says so. (c) Cache and marks go side by side: of a struct that is lent the
// borrow checker lends no two fields at once.
fn one_call(
    rt: &impl Print,
    registers: Registers,
    keys: &mut Cache,
    marks: &mut Marks,
    word: &[u8],
    numbers: &[u8],
) -> Registers {
    let n = text::numbers(numbers);
    if word == b"start".as_slice() {
        return call::start(rt, keys, marks, n[0], CACHE_SIZE.saturating_sub(n[1]));
    }
    let setting = if numbers.is_empty() {
        made::usual(registers)
    } else {
        made::setting(keys, marks, n)
    };
    call::line(rt, setting, keys, marks, word)
}

// One line of the input.
fn one_line(
    rt: &impl Print,
    registers: Registers,
    keys: &mut Cache,
    marks: &mut Marks,
    line: &[u8],
) -> Registers {
    let mut parts = line.splitn(3, |b| *b == b'|');
    let label = parts.next().unwrap_or(b"");
    let word = parts.next().unwrap_or(b"");
    let numbers = parts.next().unwrap_or(b"");
    show::text(rt, label);
    show::text(rt, b": ");
    one_call(rt, registers, keys, marks, word, numbers)
}

fn all_lines(rt: &impl Print, keys: &mut Cache, marks: &mut Marks, input: &[u8]) {
    let mut registers = made::fresh();
    for line in input.split_inclusive(|b| *b == b'\n') {
        let line = line.strip_suffix(b"\n").unwrap_or(line);
        registers = one_line(rt, registers, keys, marks, line);
    }
}

// Reads until the text is full, the input ends or a read fails, and returns how many bytes it put there. (a) No heap: std's `read_to_end`
// and `take` fill a Vec. (d) As `tuffaleen`'s, which tells what fails: a crate of its own for the two would be longer than they are.
fn read_text(rt: &HostRuntime, text: &mut [u8]) -> usize
    ensures { result ≤ length text.new }
{
    let mut n = 0;
    while n < text.len() {
        match rt.stdin().read(&mut text[n..]) {
            Ok(0) => return n,
            Ok(more) => n += more,
            Err(_) => return n,
        }
    }
    n
}

fn main(rt: HostRuntime) {
    let mut input = [0u8; INPUT];
    let n = read_text(&rt, &mut input);
    let mut keys = [0u8; CACHE_SIZE];
    let mut marks = [0u8; MOST];
    all_lines(&rt, &mut keys, &mut marks, &input[..n]);
}
