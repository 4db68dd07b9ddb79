// What a line is read and opened in.
ghost use Rattle.std.specs.Prelude.{◌≡◌, ◌/◌};
ghost use Rattle.cells.specs.Cells.{zeros};
ghost use Rattle.rules.specs.Numbers.{digits_most};
ghost use Rattle.rules.specs.Aes.{schedule_words};

use aes::SCHEDULE;
use frames::BROUGHT_MOST;
use rules::FRAME_MOST;

// A line's bytes, what a message brings, and the round keys of a wrapped load. Between lines there is nothing of a key in them: frame and round
// keys are zeros.
#[derive(Drop)]
pub(crate) struct Scratch {
    pub frame: [u8; FRAME_MOST],
    pub brought: [u8; BROUGHT_MOST],
    pub words: [u32; SCHEDULE],
    ghost wiped: { (frame ≡ zeros (digits_most / 2)) × (words ≡ zeros schedule_words) },
}

impl Scratch {
    pub(crate) fn new() -> Scratch {
        Scratch {
            frame: [0; FRAME_MOST],
            brought: [0; BROUGHT_MOST],
            words: [0; SCHEDULE],
        }
    }
}
