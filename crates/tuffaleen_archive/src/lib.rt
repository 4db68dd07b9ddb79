// The static library: the functions of tuffaleen_c under their names for C, with the same clauses. include/tuffaleen.h declares them.
#![tactic(auto)]

ghost use Rattle.std.specs.Prelude.{◌≡◌, drop};
ghost use Rattle.tuffaleen_c.specs.Image.{c_start, c_call, c_session};
ghost use Rattle.tuffaleen_c.specs.Host.{c_discovery};
ghost use Rattle.cells.specs.Cells.{zeros};
ghost use Rattle.rules.specs.Aes.{schedule_words};
ghost use Rattle.rules.specs.KeyWrap.{wrap as wrapped};
ghost use Rattle.tuffaleen_c.specs.Office.{c_message};
ghost use Rattle.tuffaleen_c.specs.Courier.{c_unwrap};

use aes::SCHEDULE;
use rules::{KEK_SIZE, WRAPPED_SIZE};

// A fresh drive with this key-encryption key, in an image of the right length.
#[unsafe(no_mangle)]
pub extern "C" fn tuffaleen_start(image: &mut [u8], marks: &mut [u8], kek: &[u8; KEK_SIZE]) -> u16
    ensures { record { number = result; image = image.new; marks = marks.new }
        ≡ c_start kek.now image.old marks.old }
{
    tuffaleen_c::tuffaleen_start(image, marks, kek)
}

// One line.
#[unsafe(no_mangle)]
pub extern "C" fn tuffaleen_line(
    image: &mut [u8],
    marks: &mut [u8],
    line: &[u8],
    out: &mut [u8],
    written: &mut usize,
) -> u16
    ensures { record { number = result; image = image.new; marks = marks.new; bytes = written.new; out = out.new }
        ≡ c_call image.old marks.old line.now out.old }
{
    tuffaleen_c::tuffaleen_line(image, marks, line, out, written)
}

// A whole session.
#[unsafe(no_mangle)]
pub extern "C" fn tuffaleen_session(
    image: &mut [u8],
    marks: &mut [u8],
    text: &[u8],
    out: &mut [u8],
    lines: &mut usize,
    written: &mut usize,
) -> u16
    ensures { record {
      number = result;
      image = image.new;
      marks = marks.new;
      lines = lines.new;
      bytes = written.new;
      out = out.new;
    }
        ≡ c_session image.old marks.old text.now out.old }
{
    tuffaleen_c::tuffaleen_session(image, marks, text, out, lines, written)
}

// For a host: what stands in a discovery response.
#[unsafe(no_mangle)]
pub extern "C" fn tuffaleen_discovery(bytes: &[u8], fields: &mut [u32]) -> u16
    ensures { record { number = result; fields = fields.new } ≡ c_discovery bytes.now fields.old }
{
    tuffaleen_c::tuffaleen_discovery(bytes, fields)
}

// For the key office: the message that brings a key to a slot.
#[unsafe(no_mangle)]
pub extern "C" fn tuffaleen_message(
    namespace: u8,
    tag: u16,
    uid: &[u8],
    key: &[u8],
    out: &mut [u8],
    written: &mut usize,
) -> u16
    ensures { record { number = result; bytes = written.new; out = out.new }
        ≡ c_message namespace tag uid.now key.now out.old }
{
    tuffaleen_c::tuffaleen_message(namespace, tag, uid, key, out, written)
}

// For the office that fills a courier's case: the key in the last 32 bytes, wrapped. The round keys go through words of the caller's: of words
// that were local here the wipe would not be in the object code.
#[unsafe(no_mangle)]
pub extern "C" fn tuffaleen_wrap(
    kek: &[u8; KEK_SIZE],
    bytes: &mut [u8; WRAPPED_SIZE],
    words: &mut [u32; SCHEDULE],
)
    ensures { (bytes.new ≡ wrapped kek.now (drop 8 bytes.old)) × (words.new ≡ zeros schedule_words) }
{
    tuffaleen_c::tuffaleen_wrap(kek, bytes, words);
}

// And for whoever opens it.
#[unsafe(no_mangle)]
pub extern "C" fn tuffaleen_unwrap(
    kek: &[u8; KEK_SIZE],
    bytes: &mut [u8; WRAPPED_SIZE],
    words: &mut [u32; SCHEDULE],
) -> u16
    ensures { (record { number = result; bytes = bytes.new } ≡ c_unwrap kek.now bytes.old)
        × (words.new ≡ zeros schedule_words) }
{
    tuffaleen_c::tuffaleen_unwrap(kek, bytes, words)
}
