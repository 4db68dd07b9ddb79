// The mark store, lent by the caller at any length: a block's mark is the MARK_WIDTH bytes from block * MARK_WIDTH. Every public function is total.
#![tactic(auto)]

ghost use Rattle.std.specs.Prelude.{◌≡◌, ◌/◌, ◌%◌, ◌<◌, length};
ghost use Rattle.cells.specs.Cells.{copies};
ghost use Rattle.rules.specs.Numbers.{mark_width};
ghost use Rattle.rules.specs.Marks.{differs};
ghost use Rattle.marks.specs.Runs.{run, one_differs};
ghost use Rattle.marks.specs.Store.{in_store, some_differs, marked, zeroed};

use rules::{BLOCKS_EACH, MARK_PLACES, MARK_WIDTH, NAMESPACES, Namespace, STORE_SIZE};

type Mark = [u8; MARK_WIDTH];

// So many marks are set, or compared, in one step, by a pattern that is the identity for each.
const RUN_MARKS: usize = 16;

const PATTERN_SIZE: usize = RUN_MARKS * MARK_WIDTH;

// From so many marks on, to make the pattern pays for setting them.
const LONG_MARKS: usize = 4 * RUN_MARKS;

// A store of the right size, and a run of its marks.
fn in_store(marks: &[u8], first: usize, n: usize) -> bool
    ensures { result ≡ in_store marks.now first n }
{
    marks.len() == STORE_SIZE && first <= MARK_PLACES && n <= MARK_PLACES - first
}

// Whether the block has been written and its mark differs from this identity. As arrays the two are compared without a call.
fn mark_differs(mark: &Mark, identity: &[u8]) -> bool
    ensures { result ≡ differs identity.now mark.now }
{
    mark[0] != 0 && Some(mark) != identity.as_array()
}

// Whether one of these marks differs, one by one.
fn differs_each(marks: &[u8], identity: &[u8]) -> bool
    ensures { result ≡ one_differs identity.now marks.now }
{
    let (marks, _) = marks.as_chunks();
    marks.iter().any(|mark| mark_differs(mark, identity))
}

// The identity for each mark of a run.
fn pattern_of(identity: &Mark) -> [u8; PATTERN_SIZE]
    ensures { result ≡ copies run identity.now }
{
    let mut pattern = [0; PATTERN_SIZE];
    set_each(&mut pattern, identity);
    pattern
}

// Whether one of a run's marks differs. A run that equals the pattern has none that does.
fn differs_in_run(marks: &[u8; PATTERN_SIZE], identity: &Mark, pattern: &[u8; PATTERN_SIZE]) -> bool
    requires { pattern.now ≡ copies run identity.now }
    ensures { result ≡ one_differs identity.now marks.now }
{
    marks != pattern && differs_each(marks, identity)
}

// Whether one of these marks differs, run by run, and the rest one by one.
fn differs_by_runs(marks: &[u8], identity: &Mark) -> bool
    ensures { result ≡ one_differs identity.now marks.now }
{
    let pattern = pattern_of(identity);
    let (runs, rest) = marks.as_chunks();
    runs.iter()
        .any(|run| differs_in_run(run, identity, &pattern))
        || differs_each(rest, identity)
}

// 00 28: whether one of the n blocks from first has been written under another identity. (a) Two numbers and no range, here and in `mark`:
// `promises` `Tight-marks-some-differs` and `Tight-marks-mark` have them.
pub fn some_differs(marks: &[u8], first: usize, n: usize, identity: &[u8]) -> bool
    ensures { result ≡ some_differs first n identity.now marks.now }
{
    if !in_store(marks, first, n) {
        return false;
    }
    let marks = &marks[first * MARK_WIDTH..(first + n) * MARK_WIDTH];
    match identity.as_array() {
        Some(identity) if n >= RUN_MARKS => differs_by_runs(marks, identity),
        _ => differs_each(marks, identity),
    }
}

// Each of the cells becomes this one. The function's own copy of it cannot overlap them, so a mark is two stores and not seventeen.
// (c) A range of places: of the chunks that `chunks_exact_mut` or `as_chunks_mut` lends, a proof knows no byte once they are written.
fn set_each<const W: usize>(cells: &mut [u8], cell: &[u8; W])
    requires some { 0 < W }
    requires whole { length cells.old % W ≡ 0 }
    ensures { cells.new ≡ copies (length cells.old / W) cell.now }
{
    let own = *cell;
    for i in 0..cells.len() / W {
        let a = i * W;
        cells[a..a + W].copy_from_slice(&own);
    }
}

// Each of these marks becomes this identity, run by run, and the rest one by one.
fn set_by_runs(marks: &mut [u8], identity: &Mark)
    requires { length marks.old % mark_width ≡ 0 }
    ensures { marks.new ≡ copies (length marks.old / mark_width) identity.now }
{
    let pattern = pattern_of(identity);
    let whole = marks.len() / PATTERN_SIZE * PATTERN_SIZE;
    let (runs, rest) = marks.split_at_mut(whole);
    set_each(runs, &pattern);
    set_each(rest, identity);
}

// The marks of the n blocks from first become this identity.
pub fn mark(marks: &mut [u8], first: usize, n: usize, identity: &[u8])
    ensures { marks.new ≡ marked first n identity.now marks.old }
{
    let Some(identity) = identity.as_array() else {
        return;
    };
    if !in_store(marks, first, n) {
        return;
    }
    let marks = &mut marks[first * MARK_WIDTH..(first + n) * MARK_WIDTH];
    if n < LONG_MARKS {
        set_each(marks, identity);
    } else {
        set_by_runs(marks, identity);
    }
}

// The namespace's blocks become never written.
pub fn zero_namespace(marks: &mut [u8], ns: Namespace)
    ensures { marks.new ≡ zeroed ns marks.old }
{
    let n = ns.0 as usize;
    if marks.len() == STORE_SIZE && (1..=NAMESPACES).contains(&n) {
        let first = (n - 1) * BLOCKS_EACH;
        cells::zero_part(marks, first * MARK_WIDTH, BLOCKS_EACH * MARK_WIDTH);
    }
}
