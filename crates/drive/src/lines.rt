// The lines of a text, one after another, and the output that their answers may need.
ghost use Rattle.std.specs.Prelude.{◌≡◌, nat_lt};
ghost use Rattle.std.specs.Iterator.{YieldsFirstRef, item_count};
ghost use Rattle.rules.specs.Answers.{line_feed};
ghost use Rattle.rules.specs.Call.{room_for};
ghost use Rattle.rules.specs.Sessions.{lines_of, room_for_all};
ghost use Rattle.memchr.specs.Find.{IsFirstByte, is_byte};

use memchr::memchr;
use rules::{ANSWER_MOST, DISCOVERY_MOST};

// The most digits of a line of kinds 02, 06 and 09 to 0C.
const SHORT: usize = 4;

// The first line feed. The search gives it as a number that the next line waits for; behind a short line the branches give it. A session of
// short lines takes a tenth to a seventh less time so, and one of longer lines up to a twentieth more.
fn feed(text: &[u8]) -> Option<usize>
    ensures { IsFirstByte (is_byte line_feed) text.now result }
{
    if let Some(end) = text.iter().take(SHORT + 1).position(|b| *b == b'\n') {
        return Some(end);
    }
    memchr(b'\n', text)
}

// The lines of the text that is left. A last line without a line feed counts.
#[derive(Drop)]
pub(crate) struct Lines<'a>(pub &'a [u8]);

impl<'a> Iterator for Lines<'a> {
    type Item = &'a [u8];

    ghost next_gives = { YieldsFirstRef (λ s. lines_of s.0.now) };

    ghost remaining = { item_count (λ s. lines_of s.0.now) };

    // In line, so that the text that is left stays in registers from line to line: a session of lines of few digits took a quarter less time.
    #[inline(always)]
    fn next(&mut self) -> Option<&'a [u8]> {
        let text = self.0;
        if text.is_empty() {
            return None;
        }
        match feed(text) {
            Some(end) => {
                self.0 = &text[end + 1..];
                Some(&text[..end])
            }
            None => {
                self.0 = &text[text.len()..];
                Some(text)
            }
        }
    }
}

// The output bytes that a line's answer may need: the line 0C asks for discovery.
pub(crate) fn room_for(line: &[u8]) -> usize
    ensures { result ≡ room_for line.now }
{
    if cells::equal(line, b"0C") {
        DISCOVERY_MOST
    } else {
        ANSWER_MOST
    }
}

// Whether the lines of a text may need more output than this. No sum is made, so that none can wrap.
pub(crate) fn need_more_than(text: &[u8], room: usize) -> bool
    ensures { result ≡ nat_lt room (room_for_all (lines_of text.now)) }
{
    let mut left = room;
    for line in Lines(text) {
        let need = room_for(line);
        if need > left {
            return true;
        }
        left -= need;
    }
    false
}
