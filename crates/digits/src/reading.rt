// A line's digits to bytes.
ghost use Rattle.std.specs.Prelude.{◌≡◌, ◌/◌, ◌≤◌, length, not, position};
ghost use Rattle.rules.specs.FrameLine.{is_digit};
ghost use Rattle.digits.specs.Decoding.{Valued, bad_digit};
ghost use Rattle.digits.specs.Digits.{framed};

// What stands for the value of a byte that is no digit.
const NO_DIGIT: u8 = 16;

// A digit's value, or `NO_DIGIT`: (b) `decode` takes ten times as long over an `Option`, a quarter longer over a match on ranges.
fn value(d: u8) -> u8
    ensures { Valued d result }
{
    let numeral = d.wrapping_sub(b'0');
    if numeral < 10 {
        return numeral;
    }
    let letter = d.wrapping_sub(b'A');
    if letter < 6 {
        return letter + 10;
    }
    NO_DIGIT
}

// The pairs of a line's digits go to the front of the frame, a byte each, with 0 for a bad digit. The place of the first bad one, if there
// is one: the loop does not stop at it, and keeps the largest value that it met, so that the compiler takes many pairs at a time. Over
// `chunks_exact` it takes them with one load, over an index into the line byte by byte. (c) Not over `frame.iter_mut().zip(pairs)`: of
// it a proof knows only the length of the frame behind the loop.
pub(crate) fn decode(line: &[u8], frame: &mut [u8]) -> Option<usize>
    requires { length line.now / 2 ≤ length frame.old }
    ensures { (result ≡ bad_digit line.now) × (frame.new ≡ framed line.now frame.old) }
{
    let pairs = line.chunks_exact(2);
    let lone = pairs.remainder();
    let mut worst = 0u8;
    for (i, pair) in pairs.enumerate() {
        let high = value(pair[0]);
        let low = value(pair[1]);
        worst = worst.max(high).max(low);
        frame[i] = high % 16 * 16 + low % 16;
    }
    if let Some(last) = lone.first() {
        worst = worst.max(value(*last));
    }
    if worst < NO_DIGIT {
        return None;
    }
    first_bad(line)
}

fn first_bad(line: &[u8]) -> Option<usize>
    ensures { result ≡ position (λ d. not (is_digit d)) line.now }
{
    line.iter().position(|d| !is_digit(*d))
}

fn is_digit(d: u8) -> bool
    ensures { result ≡ is_digit d }
{
    value(d) < NO_DIGIT
}
