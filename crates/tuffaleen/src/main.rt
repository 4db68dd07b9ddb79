// Answers a session: standard input to standard output.
#![tactic(auto)]

ghost use Rattle.std.specs.Prelude.{◌≤◌, length};

use rules::{ANSWER_MOST, CACHE_SIZE, PROGRAM_KEK, Refusal, STORE_SIZE};
use std::io::{Read, Write};

// The longest input, and room for a short answer to as many lines as it could have. Discovery takes more; a session that needs more than
// this is refused.
const INPUT: usize = 4096;

const OUTPUT: usize = INPUT * ANSWER_MOST;

fn print(rt: &HostRuntime, answers: &[u8]) {
    if rt.stdout().write_all(answers).is_err() {
        let _ = eprintln!(rt; "tuffaleen: a write failed, so answers are missing");
    }
}

// Reads until the text is full or the input ends, and returns how many bytes it put there. A read that fails ends the input too, and is told.
// (a) No heap: std's `read_to_end` and `take` fill a Vec.
fn read_text(rt: &HostRuntime, text: &mut [u8]) -> usize
    ensures { result ≤ length text.new }
{
    let mut n = 0;
    while n < text.len() {
        match rt.stdin().read(&mut text[n..]) {
            Ok(0) => return n,
            Ok(more) => n += more,
            Err(_) => {
                let _ = eprintln!(rt; "tuffaleen: a read failed, so the input ends there");
                return n;
            }
        }
    }
    n
}

// The line of the number that refused the whole session.
fn print_refusal(rt: &HostRuntime, refusal: Refusal) {
    let mut out = [0u8; ANSWER_MOST];
    let bytes = digits::write_answer(Err(refusal), &mut out);
    print(rt, &out[..bytes]);
}

fn main(rt: HostRuntime) {
    let mut text = [0u8; INPUT + 1];
    let n = read_text(&rt, &mut text);
    if n > INPUT {
        print_refusal(&rt, Refusal::OutputTooShort);
        return;
    }
    let mut keys = [0u8; CACHE_SIZE];
    let mut marks = [0u8; STORE_SIZE];
    let mut out = [0u8; OUTPUT];
    let fresh = drive::start(&PROGRAM_KEK, &mut keys, &mut marks).registers;
    let ran = drive::answer_session(fresh, &mut keys, &mut marks, &text[..n], &mut out);
    match ran.result {
        Ok(_) => print(&rt, &out[..ran.bytes]),
        Err(refusal) => print_refusal(&rt, refusal),
    }
}
