// What a call left, as text. A write that fails is told by nobody: whoever runs this compares what was printed.
use crate::ROOM;
use rules::Answer;

pub(crate) fn text(rt: &impl Print, s: &[u8]) {
    let _ = rt.write_all(s);
}

// The answer's number, as four digits.
pub(crate) fn number(rt: &impl Print, answer: Answer) {
    let n = digits::number(answer);
    let _ = print!(rt; "{n:04X}");
}

// The answer's number, how many bytes were written, and which, with a stroke for the line feed at the end.
pub(crate) fn answer(rt: &impl Print, answer: Answer, out: &[u8], bytes: usize) {
    number(rt, answer);
    let _ = print!(rt; " {bytes}");
    match out.get(..bytes) {
        Some([line @ .., last]) => {
            text(rt, b" ");
            text(rt, line);
            where_so(rt, "/", *last == b'\n');
        }
        _ => {}
    }
}

pub(crate) fn where_so(rt: &impl Print, what: &str, so: bool) {
    if so {
        let _ = print!(rt; "{what}");
    }
}

pub(crate) fn same_or_changed(rt: &impl Print, what: &str, same: bool) {
    let how = if same { "same" } else { "changed" };
    let _ = print!(rt; " {what} {how}");
}

// Whether the output past the bytes written still has the dots that it had.
pub(crate) fn rest(rt: &impl Print, out: &[u8; ROOM], bytes: usize) {
    let same = match out.get(bytes..) {
        Some(rest) => rest.iter().all(|b| *b == b'.'),
        None => false,
    };
    same_or_changed(rt, "rest", same);
    text(rt, b"\n");
}
