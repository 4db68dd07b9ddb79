// One call of the library, and what its line of text says after the label.
use crate::{Cache, MOST, Marks, ROOM, Setting, made, show};
use drive::{Answered, Reply};
use rules::{CACHE_SIZE, PROGRAM_KEK, Registers, SLOTS_SIZE};

fn lend_line(
    setting: Setting,
    keys: &mut [u8],
    marks: &mut [u8],
    frame: &[u8],
    out: &mut [u8],
) -> Reply {
    let k = setting.cache.min(keys.len());
    let n = setting.store.min(marks.len());
    let m = setting.room.min(out.len());
    drive::answer_line(
        setting.registers,
        &mut keys[..k],
        &mut marks[..n],
        frame,
        &mut out[..m],
    )
}

// A call of answer_line: number, bytes written, whether state with cache, store and the rest of the output stayed.
pub(crate) fn line(
    rt: &impl Print,
    setting: Setting,
    keys: &mut Cache,
    marks: &mut Marks,
    frame: &[u8],
) -> Registers {
    let kept_keys = *keys;
    let kept_marks = *marks;
    let mut out = [b'.'; ROOM];
    let left = lend_line(setting, keys, marks, frame, &mut out);
    show::answer(rt, left.answer, &out, left.bytes);
    let state = left.registers == setting.registers && *keys == kept_keys;
    show::same_or_changed(rt, "state", state);
    show::same_or_changed(rt, "marks", *marks == kept_marks);
    show::rest(rt, &out, left.bytes);
    left.registers
}

fn lend_start(keys: &mut [u8], marks: &mut [u8], store: usize, cache: usize) -> Answered {
    let k = cache.min(keys.len());
    let n = store.min(marks.len());
    drive::start(&PROGRAM_KEK, &mut keys[..k], &mut marks[..n])
}

fn all_zero(marks: &[u8], store: usize) -> bool {
    let n = store.min(marks.len());
    cells::all_zero(&marks[..n])
}

// No keys, and the key-encryption key of a start behind them.
fn fresh_cache(keys: &Cache) -> bool {
    cells::all_zero(&keys[..SLOTS_SIZE]) && cells::equal(&keys[SLOTS_SIZE..], &PROGRAM_KEK)
}

// A call of start: number, whether the state is fresh, whether the store stayed, and whether the lent part is zeros.
pub(crate) fn start(
    rt: &impl Print,
    keys: &mut Cache,
    marks: &mut Marks,
    store: usize,
    cache: usize,
) -> Registers {
    *keys = [7u8; CACHE_SIZE];
    *marks = [7u8; MOST];
    let kept = *marks;
    let left = lend_start(keys, marks, store, cache);
    show::number(rt, left.answer);
    let fresh = left.registers == made::fresh() && fresh_cache(keys);
    show::where_so(rt, " fresh", fresh);
    show::same_or_changed(rt, "marks", *marks == kept);
    show::where_so(rt, ", zeros", all_zero(marks, store));
    show::text(rt, b"\n");
    left.registers
}
