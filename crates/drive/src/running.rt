// A session's lines, one after another. The room, the store and soundness are judged before; each step keeps them.
ghost use Rattle.std.specs.Prelude.{◌≡◌, ◌≤◌, length};
ghost use Rattle.rules.specs.Sessions.{lines_of, room_for_all, all_answered};
ghost use Rattle.drive.specs.Acting.{state, Ready};

use crate::SessionReply;
use crate::act::on_line;
use crate::lines::Lines;
use crate::scratch::Scratch;
use rules::{Granted, Registers};

// Answers each line; each answer goes to the part of the output that starts where the last one ended. One scratch serves all lines.
pub(crate) fn run(
    registers: Registers,
    keys: &mut [u8],
    marks: &mut [u8],
    text: &[u8],
    out: &mut [u8],
) -> SessionReply
    requires { Ready registers keys.old marks.old × (room_for_all (lines_of text.now) ≤ length out.old) }
    ensures { record {
      result = result.result;
      state = state result.registers keys.new marks.new;
      lines = result.lines;
      bytes = result.bytes;
      out = out.new;
    }
        ≡ all_answered (state registers keys.old marks.old) text.now out.old }
{
    let mut registers = registers;
    let mut scratch = Scratch::new();
    let mut lines = 0;
    let mut bytes = 0;
    for line in Lines(text) {
        let answer = on_line(&mut registers, keys, marks, line, &mut scratch);
        bytes += digits::write_answer(answer, &mut out[bytes..]);
        lines += 1;
    }
    SessionReply {
        result: Ok(Granted::Done),
        registers,
        lines,
        bytes,
    }
}
