// A frame line to its bytes, and an answer to its line.
#![tactic(auto)]

ghost use Rattle.std.specs.Prelude.{◌≡◌};
ghost use Rattle.rules.specs.Answers.{number as number_of};
ghost use Rattle.digits.specs.Digits.{read_into, wrote};

mod reading;
mod writing;

use rules::{Answer, BadLine, DIGITS_MOST, FRAME_MOST, Granted};

// Reads a line into the front of the frame, and says how many bytes it has or why it is no frame line. A good line is gone through once;
// only one with a bad digit is looked through again, for its place.
pub fn read_line(line: &[u8], frame: &mut [u8; FRAME_MOST]) -> Result<usize, BadLine>
    ensures { record { read = result; frame = frame.new } ≡ read_into line.now frame.old }
{
    let n = line.len();
    if n == 0 {
        return Err(BadLine::Empty);
    }
    if n > DIGITS_MOST {
        return Err(BadLine::TooLong);
    }
    if let Some(place) = reading::decode(line, frame) {
        return Err(BadLine::BadDigit(place));
    }
    if n % 2 == 1 {
        return Err(BadLine::Odd);
    }
    Ok(n / 2)
}

// The answer's number in the paper.
pub fn number(answer: Answer) -> u16
    ensures { result ≡ number_of answer }
{
    match answer {
        Ok(_) => 0,
        Err(refusal) => u16::from(refusal),
    }
}

// Writes the answer's line to the front of the output, and says how many bytes it has; 0 where there is no room.
pub fn write_answer(answer: Answer, out: &mut [u8]) -> usize
    ensures { record { bytes = result; out = out.new } ≡ wrote answer out.old }
{
    match answer {
        Ok(Granted::Done) => writing::write_line(&[0, 0], out),
        Ok(Granted::LockStates(dword)) => {
            let [lowest, low, high, highest] = dword.to_le_bytes();
            writing::write_line(&[0, 0, lowest, low, high, highest], out)
        }
        Ok(Granted::Discovery) => writing::write_discovery(out),
        Err(refusal) => writing::write_refusal(refusal, out),
    }
}
