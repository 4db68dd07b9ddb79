// The drive: the checks of each frame in the paper's order, and its effects. What needs a sound state is private; what others call refuses
// an unsound one itself. Key cache and mark store are lent, at any length, and never copied.
// (d) Registers, cache and marks go side by side: a struct of them holds `&mut`s, and each clause has to say that they stay the caller's.
#![tactic(auto)]

ghost use Rattle.std.specs.Prelude.{◌≡◌, ◌≤◌, length};
ghost use Rattle.rules.specs.Start.{emptied_cache, start as started};
ghost use Rattle.rules.specs.Call.{call, answered, room_for};
ghost use Rattle.rules.specs.Sessions.{session};
ghost use Rattle.drive.specs.Acting.{state, outcome, Ready, zeroed};

mod act;
mod admit;
mod answers;
mod boot;
mod contents;
mod io;
mod keys;
mod lines;
mod running;
mod scratch;
mod wrapped;

use rules::{
    Answer, CACHE_SIZE, Granted, KEK_SIZE, NAMESPACES, Refusal, Registers, SLOTS_SIZE, STORE_SIZE,
};
use scratch::Scratch;

// An answer, and the registers after it.
#[derive(Clone, Copy)]
pub struct Answered {
    pub answer: Answer,
    pub registers: Registers,
}

// What a call for one line hands back: its answer, the registers, the bytes written.
#[derive(Clone, Copy)]
pub struct Reply {
    pub answer: Answer,
    pub registers: Registers,
    pub bytes: usize,
}

// What a session hands back: 0000 or the number that refused it, the registers, lines answered, bytes written.
#[derive(Clone, Copy)]
pub struct SessionReply {
    pub result: Answer,
    pub registers: Registers,
    pub lines: usize,
    pub bytes: usize,
}

// What an opcode does to the medium.
#[derive(Clone, Copy)]
pub(crate) enum Access {
    Write,
    Read,
}

// A cache of the right length with no keys, and with this key-encryption key; any other stays.
fn emptied(kek: &[u8; KEK_SIZE], keys: &mut [u8])
    ensures { keys.new ≡ emptied_cache kek.now keys.old }
{
    if keys.len() != CACHE_SIZE {
        return;
    }
    slots::clear_all(keys);
    cells::copy(&mut keys[SLOTS_SIZE..], kek);
}

// 07 0D, 07 0E; then the store is zeroed.
fn zeroed(keys: &[u8], marks: &mut [u8]) -> Answer
    ensures { record { answer = result; marks = marks.new } ≡ zeroed keys.now marks.old }
{
    if marks.len() != STORE_SIZE {
        return Err(Refusal::WrongStore);
    }
    if keys.len() != CACHE_SIZE {
        return Err(Refusal::UnsoundState);
    }
    cells::fill_zero(marks);
    Ok(Granted::Done)
}

// Starts a fresh drive: a cache of the right length emptied, and then a store of the right length zeroed. What has another length stays.
pub fn start(kek: &[u8; KEK_SIZE], keys: &mut [u8], marks: &mut [u8]) -> Answered
    ensures { outcome result keys.new marks.new ≡ started kek.now keys.old marks.old }
{
    emptied(kek, keys);
    let registers = Registers {
        counts: [0; NAMESPACES],
        locks: locks::both_locked(),
    };
    Answered {
        answer: zeroed(keys, marks),
        registers,
    }
}

// A line on a drive that was found ready, with room for its answer.
fn on_ready(
    registers: Registers,
    keys: &mut [u8],
    marks: &mut [u8],
    line: &[u8],
    out: &mut [u8],
) -> Reply
    requires { Ready registers keys.old marks.old × (room_for line.now ≤ length out.old) }
    ensures { record {
      answer = result.answer;
      state = state result.registers keys.new marks.new;
      bytes = result.bytes;
      out = out.new;
    }
        ≡ answered (state registers keys.old marks.old) line.now out.old }
{
    let mut registers = registers;
    let mut scratch = Scratch::new();
    let answer = act::on_line(&mut registers, keys, marks, line, &mut scratch);
    let bytes = digits::write_answer(answer, out);
    Reply {
        answer,
        registers,
        bytes,
    }
}

// One call for one line: 07 0F, 07 0D, 07 0E, then the line. The answer's line goes to the front of the output.
pub fn answer_line(
    registers: Registers,
    keys: &mut [u8],
    marks: &mut [u8],
    line: &[u8],
    out: &mut [u8],
) -> Reply
    ensures { record {
      answer = result.answer;
      state = state result.registers keys.new marks.new;
      bytes = result.bytes;
      out = out.new;
    }
        ≡ call (state registers keys.old marks.old) line.now out.old }
{
    let short = out.len() < lines::room_for(line);
    match admit::admit(short, registers, keys, marks) {
        Err(refusal) => Reply {
            answer: Err(refusal),
            registers,
            bytes: 0,
        },
        Ok(()) => on_ready(registers, keys, marks, line, out),
    }
}

// A whole session: room for all its lines, the store and soundness are judged once.
pub fn answer_session(
    registers: Registers,
    keys: &mut [u8],
    marks: &mut [u8],
    text: &[u8],
    out: &mut [u8],
) -> SessionReply
    ensures { record {
      result = result.result;
      state = state result.registers keys.new marks.new;
      lines = result.lines;
      bytes = result.bytes;
      out = out.new;
    }
        ≡ session (state registers keys.old marks.old) text.now out.old }
{
    let short = lines::need_more_than(text, out.len());
    match admit::admit(short, registers, keys, marks) {
        Err(refusal) => SessionReply {
            result: Err(refusal),
            registers,
            lines: 0,
            bytes: 0,
        },
        Ok(()) => running::run(registers, keys, marks, text, out),
    }
}
