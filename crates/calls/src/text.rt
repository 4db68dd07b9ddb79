// The numbers in a part of an input line.
use rules::NAMESPACES;

// As many numbers as an input line may have: two lengths, the tag counts, three for a slot, and one for the cache.
pub const NUMBERS: usize = 2 + NAMESPACES + 3 + 1;

// The number with one digit more; of more than five digits the last five count.
fn with_digit(n: usize, digit: u8) -> usize {
    n % 10_000 * 10 + usize::from(digit.wrapping_sub(b'0') % 10)
}

// The first numbers of the text. A byte that is no digit ends a number.
pub(crate) fn numbers(text: &[u8]) -> [usize; NUMBERS] {
    let mut all = [0; NUMBERS];
    for (n, word) in all.iter_mut().zip(text.split(|b| !b.is_ascii_digit())) {
        *n = word.iter().fold(0, |n, digit| with_digit(n, *digit));
    }
    all
}
