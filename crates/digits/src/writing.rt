// Numbers of refusals, what they tell of a line, and lines of answers.
ghost use Rattle.std.specs.Prelude.{◌≡◌, ◌*◌, ◌/◌, ◌<◌, ◌≤◌, ◌++◌, length, drop};
ghost use Rattle.rules.specs.Answer.{Answer};
ghost use Rattle.rules.specs.declared.Granted.{Granted};
ghost use Rattle.rules.specs.Answers.{reason, place_in, answer_bytes, digit_of, digits_of};
ghost use Rattle.digits.specs.Digits.{wrote};

use rules::{BadLine, DISCOVERY_SIZE, Refusal};

// The bytes of an answer's number.
const NUMBER_SIZE: usize = 2;

// A reason's number, and its place, 0 where it has none.
fn told(why: BadLine) -> (u8, usize)
    ensures { (result.0 ≡ reason why) × (result.1 ≡ place_in why) }
{
    match why {
        BadLine::Empty => (1, 0),
        BadLine::TooLong => (2, 0),
        BadLine::BadDigit(place) => (3, place),
        BadLine::Odd => (4, 0),
    }
}

fn digit(n: u8) -> u8
    requires { n < 16 }
    ensures { result ≡ digit_of n }
{
    if n < 10 {
        return b'0' + n;
    }
    b'A' + (n - 10)
}

// Two digits for each byte, at the front of the output. (c) Not over `out.chunks_exact_mut(2)`: std doesn't say what the slice ends as.
#[tactic(auto, using(crate::proofs::WritingLaws::digits_turn), unfolding(rules::specs::Answers::digits_of))]
fn put_digits(bytes: &[u8], out: &mut [u8])
    requires { length bytes.now * 2 ≤ length out.old }
    ensures { out.new ≡ digits_of bytes.now ++ drop (length bytes.now * 2) out.old }
{
    for (i, byte) in bytes.iter().enumerate() {
        let at = i * 2;
        out[at] = digit(byte / 16);
        out[at + 1] = digit(byte % 16);
    }
}

// Writes the line of an answer that has these bytes, and says how long it is. (a) 0 where there is no room: `write_answer` is `wrote`, which `promises` has.
pub(crate) fn write_line(bytes: &[u8], out: &mut [u8]) -> usize
    ensures { (a : Answer) → answer_bytes a ≡ bytes.entry.now
        → record { bytes = result; out = out.new } ≡ wrote a out.old }
{
    let n = bytes.len() * 2;
    if out.len() <= n {
        return 0;
    }
    put_digits(bytes, out);
    out[n] = b'\n';
    n + 1
}

// Writes the line of discovery: 0000 and the response.
pub(crate) fn write_discovery(out: &mut [u8]) -> usize
    ensures { record { bytes = result; out = out.new } ≡ wrote (Ok Granted.Discovery) out.old }
{
    let mut bytes = [0u8; NUMBER_SIZE + DISCOVERY_SIZE];
    let fields = discovery::own_fields();
    // It has room.
    let _ = discovery::write(fields, &mut bytes[NUMBER_SIZE..]);
    write_line(&bytes, out)
}

// Writes the line of a refusal: its number, and behind it what it tells of a line.
pub(crate) fn write_refusal(refusal: Refusal, out: &mut [u8]) -> usize
    ensures { record { bytes = result; out = out.new } ≡ wrote (Err refusal) out.old }
{
    let [status, code] = u16::from(refusal).to_be_bytes();
    let Refusal::NotAFrameLine(why) = refusal else {
        return write_line(&[status, code], out);
    };
    let (reason, place) = told(why);
    let [low, high, ..] = place.to_le_bytes();
    write_line(&[status, code, reason, low, high], out)
}
