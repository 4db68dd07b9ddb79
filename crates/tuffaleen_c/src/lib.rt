// The drive for callers in C: the state as one byte image that the caller holds. include/tuffaleen.h declares this, and crates/tuffaleen_archive
// exports it.
#![tactic(auto)]

ghost use Rattle.std.specs.Prelude.{◌≡◌, drop};
ghost use Rattle.tuffaleen_c.specs.Image.{c_start, c_call, c_session};
ghost use Rattle.tuffaleen_c.specs.Host.{c_discovery};
ghost use Rattle.cells.specs.Cells.{zeros};
ghost use Rattle.rules.specs.Aes.{schedule_words};
ghost use Rattle.rules.specs.KeyWrap.{wrap as wrapped};
ghost use Rattle.tuffaleen_c.specs.Office.{c_message};
ghost use Rattle.tuffaleen_c.specs.Courier.{c_unwrap};

mod host;
mod image;

use aes::SCHEDULE;
use rules::{Granted, KEK_SIZE, Refusal, WRAPPED_SIZE};

// A fresh drive with this key-encryption key, in an image of the right length.
pub fn tuffaleen_start(image: &mut [u8], marks: &mut [u8], kek: &[u8; KEK_SIZE]) -> u16
    ensures { record { number = result; image = image.new; marks = marks.new }
        ≡ c_start kek.now image.old marks.old }
{
    if image.len() != image::IMAGE_SIZE {
        return digits::number(drive::start(kek, &mut [], marks).answer);
    }
    let started = drive::start(kek, &mut image[image::REGISTERS_SIZE..], marks);
    image::save(image, started.registers);
    digits::number(started.answer)
}

// One line.
pub fn tuffaleen_line(
    image: &mut [u8],
    marks: &mut [u8],
    line: &[u8],
    out: &mut [u8],
    written: &mut usize,
) -> u16
    ensures { record { number = result; image = image.new; marks = marks.new; bytes = written.new; out = out.new }
        ≡ c_call image.old marks.old line.now out.old }
{
    let reply = image::lend(
        image,
        &mut |registers, keys| {
            let reply = drive::answer_line(registers, keys, marks, line, out);
            (reply.registers, reply)
        },
    );
    *written = reply.bytes;
    digits::number(reply.answer)
}

// A whole session.
pub fn tuffaleen_session(
    image: &mut [u8],
    marks: &mut [u8],
    text: &[u8],
    out: &mut [u8],
    lines: &mut usize,
    written: &mut usize,
) -> u16
    ensures { record {
      number = result;
      image = image.new;
      marks = marks.new;
      lines = lines.new;
      bytes = written.new;
      out = out.new;
    }
        ≡ c_session image.old marks.old text.now out.old }
{
    let reply = image::lend(
        image,
        &mut |registers, keys| {
            let reply = drive::answer_session(registers, keys, marks, text, out);
            (reply.registers, reply)
        },
    );
    *lines = reply.lines;
    *written = reply.bytes;
    digits::number(reply.result)
}

// For a host: what stands in a discovery response.
pub fn tuffaleen_discovery(bytes: &[u8], fields: &mut [u32]) -> u16
    ensures { record { number = result; fields = fields.new } ≡ c_discovery bytes.now fields.old }
{
    if fields.len() < host::FIELDS_SIZE {
        return u16::from(Refusal::OutputTooShort);
    }
    match discovery::read(bytes) {
        Ok(found) => {
            host::put(fields, found);
            digits::number(Ok(Granted::Done))
        }
        Err(refusal) => u16::from(refusal),
    }
}

// For the key office: the message that brings a key to a slot.
#[tactic(auto, unfolding(crate::specs::Office::c_message))]
pub fn tuffaleen_message(
    namespace: u8,
    tag: u16,
    uid: &[u8],
    key: &[u8],
    out: &mut [u8],
    written: &mut usize,
) -> u16
    ensures { record { number = result; bytes = written.new; out = out.new }
        ≡ c_message namespace tag uid.now key.now out.old }
{
    match kmip::write(namespace, tag, uid, key, out) {
        Ok(n) => {
            *written = n;
            digits::number(Ok(Granted::Done))
        }
        Err(error) => {
            *written = 0;
            u16::from(Refusal::from(error))
        }
    }
}

// For the office that fills a courier's case: the key in the last 32 bytes, wrapped. The round keys go through words of the caller's: of words
// that were local here the wipe would not be in the object code.
pub fn tuffaleen_wrap(
    kek: &[u8; KEK_SIZE],
    bytes: &mut [u8; WRAPPED_SIZE],
    words: &mut [u32; SCHEDULE],
)
    ensures { (bytes.new ≡ wrapped kek.now (drop 8 bytes.old)) × (words.new ≡ zeros schedule_words) }
{
    wrap::wrap(kek, bytes, words);
}

// And for whoever opens it.
pub fn tuffaleen_unwrap(
    kek: &[u8; KEK_SIZE],
    bytes: &mut [u8; WRAPPED_SIZE],
    words: &mut [u32; SCHEDULE],
) -> u16
    ensures { (record { number = result; bytes = bytes.new } ≡ c_unwrap kek.now bytes.old)
        × (words.new ≡ zeros schedule_words) }
{
    if wrap::unwrap(kek, bytes, words) {
        return digits::number(Ok(Granted::Done));
    }
    u16::from(Refusal::IntegrityFailed)
}
