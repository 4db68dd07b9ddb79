// Words, blocks and bytes as digits. A write that fails is told by nobody: whoever runs this compares what was printed.
use aes::Block;

pub(crate) fn text(rt: &impl Print, s: &str) {
    let _ = print!(rt; "{s}");
}

pub(crate) fn word(rt: &impl Print, w: u32) {
    let _ = print!(rt; "{w:08X}");
}

pub(crate) fn block(rt: &impl Print, x: Block) {
    for w in [x.a, x.b, x.c, x.d] {
        word(rt, w);
    }
}

pub(crate) fn bytes(rt: &impl Print, all: &[u8]) {
    for b in all {
        let _ = print!(rt; "{b:02X}");
    }
    text(rt, "\n");
}

pub(crate) fn refused(rt: &impl Print, so: bool) {
    text(rt, if so { "+" } else { "-" });
}
