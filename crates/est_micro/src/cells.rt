//! The cells of one statement: they are told what is judged of it, and read.
ghost use Rattle.std.specs.Prelude.{◌≡◌, ◌≢◌, ◌<◌, ◌≤◌, ◌+◌, ◌||◌, ℕ, Some, false, length};
ghost use Rattle.std.specs.Prelude.{slice_get};
ghost use Rattle.est_kernel.specs.CodeViews.{code_of, codes_of};
ghost use Rattle.est_kernel.specs.Codes.{no_codes};
ghost use Rattle.est_meaning.specs.Signals.{no_signals, union};
ghost use Rattle.est_meaning.specs.Environments.{verdict};
ghost use Rattle.est_meaning.specs.declared.status.Status.TheVariants.{Unknown};
ghost use Rattle.est_cells.specs.Tables.{is_sure, is_possible};
ghost use Rattle.est_net.specs.Cells.{Learns, cell_at};
ghost use Rattle.est_net.specs.Kept.{kept};
ghost use Rattle.est_net.specs.Layout.{sure_codes, possible_codes};
ghost use Rattle.est_micro.specs.Sweeps.{told};
ghost use Rattle.est_micro.specs.Inner.Views.{AreTold, IsFinished, IsFresh, IsJudged};

use crate::direction::Direction;
use crate::learning::decide_open;
use crate::sweep_kind::SweepKind;
use est_kernel::code_set::CodeSet;
use est_kernel::completion::Completion;
use est_kernel::statement::TrapIndex;
use est_meaning::signal_set;
use est_meaning::status::Status;
use est_net::net::Net;
use est_rounds::acts::{Acts, MustCan};

/// Where a statement and its cells stand, and which way a sweep goes over them.
#[derive(Clone, Copy)]
pub struct StatementPlace {
    /// Its number, in the order of the text.
    pub number: usize,
    /// Whether they are those of the incarnation that can go on from its pauses.
    pub main: bool,
    /// Which side of a `||` is visited first.
    pub direction: Direction,
    /// The cell for whether it is begun. Those for its codes follow.
    pub cell: usize,
    /// How many traps are around it.
    pub traps: usize,
}

/// What the cells of a statement say after a sweep.
#[derive(Clone, Copy)]
pub struct Swept {
    /// What it surely gives and emits, and what it possibly does.
    pub judged: MustCan,
    /// The first place after its cells.
    pub past: usize,
}

/// The completion of this code.
fn completion_of(code: usize) -> Completion
    requires { code < 64 }
    ensures { code_of result ≡ code }
{
    if code == 0 {
        Completion::End
    } else if code == 1 {
        Completion::Pause
    } else {
        Completion::Exit(TrapIndex {
            index: code as u16 - 2,
        })
    }
}

/// The codes with this one, if it is to be with them.
fn with_code(codes: CodeSet, code: usize, is_in: bool) -> CodeSet
    requires { code < 64 }
    ensures here { codes_of result code ≡ (codes_of codes code || is_in) }
    ensures others { (k : ℕ) → k ≢ code → codes_of result k ≡ codes_of codes k }
{
    if is_in {
        codes.union(CodeSet::single(completion_of(code)))
    } else {
        codes
    }
}

/// Whether a cell is true.
pub fn is_true(status: Status) -> bool
    ensures { result ≡ is_sure status }
{
    match status {
        Status::Present => true,
        Status::Absent | Status::Unknown => false,
    }
}

/// Whether a cell isn't false.
pub fn may_be_true(status: Status) -> bool
    ensures { result ≡ is_possible status }
{
    match status {
        Status::Absent => false,
        Status::Present | Status::Unknown => true,
    }
}

/// The codes whose cells are true, and those whose cells aren't false.
#[derive(Clone, Copy)]
pub struct CodesRead {
    pub sure: CodeSet,
    pub possible: CodeSet,
}

/// What was read, and one more code as its cell says.
fn with_cell(read: CodesRead, code: usize, status: Status) -> CodesRead
    requires { code < 64 }
    ensures sure { codes_of result.sure code ≡ (codes_of read.sure code || is_sure status) }
    ensures other_sure { (k : ℕ) → k ≢ code → codes_of result.sure k ≡ codes_of read.sure k }
    ensures possible { codes_of result.possible code
        ≡ (codes_of read.possible code || is_possible status) }
    ensures other_possible { (k : ℕ) → k ≢ code
        → codes_of result.possible k ≡ codes_of read.possible k }
{
    CodesRead {
        sure: with_code(read.sure, code, is_true(status)),
        possible: with_code(read.possible, code, may_be_true(status)),
    }
}

/// Reads `count` code cells from a place on. Codes 0 and 1, which every statement has, stand before
/// the loop: there each is a constant for the compiler.
#[inline(always)]
pub fn read_codes(net: &Net, cell: usize, count: usize) -> CodesRead
    requires within { cell + count ≤ length net.now.cells.items }
    requires some { 2 ≤ count }
    requires few { count ≤ 64 }
    ensures sure { codes_of result.sure ≡ sure_codes (cell_at net.now.cells.items) cell count }
    ensures possible { codes_of result.possible
        ≡ possible_codes (cell_at net.now.cells.items) cell count }
{
    let none = CodesRead {
        sure: CodeSet::empty(),
        possible: CodeSet::empty(),
    };
    let first = with_cell(none, 0, net.status(cell));
    let mut read = with_cell(first, 1, net.status(cell + 1));
    for code in 2..count {
        read = with_cell(read, code, net.status(cell + code));
    }
    read
}

/// Tells an open code cell what is judged of its code, and adds what it then says to what was read.
#[inline(always)]
fn tell_open_code(
    net: &mut Net,
    cell: usize,
    code: usize,
    judged: &MustCan,
    read: CodesRead,
) -> CodesRead
    requires open { slice_get net.old.cells.items (cell + code) ≡ Some Unknown }
    requires few { code < 64 }
    ensures learns { Learns (cell + code)
        (verdict (codes_of judged.now.must.codes code) (codes_of judged.now.can.codes code))
        net.old.cells.items net.new.cells.items }
    ensures sure { codes_of result.sure code
        ≡ (codes_of read.sure code || is_sure (cell_at net.new.cells.items (cell + code))) }
    ensures other_sure { (k : ℕ) → k ≢ code → codes_of result.sure k ≡ codes_of read.sure k }
    ensures possible { codes_of result.possible code
        ≡ (codes_of read.possible code
        || is_possible (cell_at net.new.cells.items (cell + code))) }
    ensures other_possible { (k : ℕ) → k ≢ code
        → codes_of result.possible k ≡ codes_of read.possible k }
    ensures kept { kept net.new ≡ kept net.old }
{
    let completion = completion_of(code);
    let sure = judged.must.codes.has(completion);
    let possible = judged.can.codes.has(completion);
    decide_open(net, cell + code, sure, possible);
    CodesRead {
        sure: with_code(read.sure, code, sure),
        possible: with_code(read.possible, code, sure || possible),
    }
}

/// Tells a code cell what is judged of its code, and adds what it then says to what was read.
#[inline(always)]
fn tell_code<K: SweepKind>(
    net: &mut Net,
    cell: usize,
    code: usize,
    judged: &MustCan,
    read: CodesRead,
) -> CodesRead
    requires within { cell + code < length net.old.cells.items }
    requires fresh { IsFresh K.first (cell + code) (cell + code + 1) net.old.cells.items }
    requires few { code < 64 }
    ensures learns { Learns (cell + code)
        (verdict (codes_of judged.now.must.codes code) (codes_of judged.now.can.codes code))
        net.old.cells.items net.new.cells.items }
    ensures sure { codes_of result.sure code
        ≡ (codes_of read.sure code || is_sure (cell_at net.new.cells.items (cell + code))) }
    ensures other_sure { (k : ℕ) → k ≢ code → codes_of result.sure k ≡ codes_of read.sure k }
    ensures possible { codes_of result.possible code
        ≡ (codes_of read.possible code
        || is_possible (cell_at net.new.cells.items (cell + code))) }
    ensures other_possible { (k : ℕ) → k ≢ code
        → codes_of result.possible k ≡ codes_of read.possible k }
    ensures kept { kept net.new ≡ kept net.old }
{
    if K::is_first() {
        tell_open_code(net, cell, code, judged, read)
    } else if net.is_decided(cell + code) {
        with_cell(read, code, net.status(cell + code))
    } else {
        tell_open_code(net, cell, code, judged, read)
    }
}

/// Whether a code above 1 is among these.
fn has_exit(codes: CodeSet) -> bool
    ensures { result ≡ false → (k : ℕ) → 2 ≤ k → codes_of codes k ≡ false }
{
    let ends = with_code(CodeSet::empty(), 0, codes.has(Completion::End));
    with_code(ends, 1, codes.has(Completion::Pause)) != codes
}

/// Tells `count` code cells what is judged of their codes, and reads them. Codes 0 and 1 stand
/// before the loop, as in `read_codes`. In the first sweep of an instant one code above 1 is
/// told without the loop; of several, if none may be given, all cells are false at once.
#[inline(always)]
pub fn tell<K: SweepKind>(net: &mut Net, cell: usize, count: usize, judged: &MustCan) -> CodesRead
    requires within { cell + count ≤ length net.old.cells.items }
    requires fresh { IsFresh K.first cell (cell + count) net.old.cells.items }
    requires some { 2 ≤ count }
    requires few { count ≤ 64 }
    ensures told { AreTold cell count judged.now net.old.cells.items net.new.cells.items }
    ensures sure { codes_of result.sure ≡ sure_codes (cell_at net.new.cells.items) cell count }
    ensures possible { codes_of result.possible
        ≡ possible_codes (cell_at net.new.cells.items) cell count }
    ensures kept { kept net.new ≡ kept net.old }
{
    let none = CodesRead {
        sure: CodeSet::empty(),
        possible: CodeSet::empty(),
    };
    let first = tell_code::<K>(net, cell, 0, judged, none);
    let mut read = tell_code::<K>(net, cell, 1, judged, first);
    if K::is_first() {
        if count == 2 {
            return read;
        }
        if count == 3 {
            return tell_code::<K>(net, cell, 2, judged, read);
        }
        if !has_exit(judged.must.codes) && !has_exit(judged.can.codes) {
            net.fill(cell + 2, cell + count);
            return read;
        }
    }
    for code in 2..count {
        read = tell_code::<K>(net, cell, code, judged, read);
    }
    read
}

/// What is found of a statement that takes no part; `past` is the first place after its cells.
pub fn nothing(past: usize) -> Swept
    ensures judged { IsJudged no_codes no_codes no_signals no_signals result.judged }
    ensures past { result.past ≡ past }
{
    let none = Acts {
        signals: signal_set::no_signal(),
        codes: CodeSet::empty(),
    };
    Swept {
        judged: MustCan {
            must: none,
            can: none,
        },
        past,
    }
}

/// Tells a statement's code cells what is judged of it, and reads them.
#[inline(always)]
pub fn finish_statement<K: SweepKind>(
    net: &mut Net,
    at: &StatementPlace,
    own: &MustCan,
    past: usize,
) -> Swept
    requires within { at.now.cell + at.now.traps + 3 ≤ length net.old.cells.items }
    requires fresh { IsFresh K.first (at.now.cell + 1) (at.now.cell + at.now.traps + 3)
        net.old.cells.items }
    requires few { at.now.traps ≤ 62 }
    ensures finished { IsFinished at.now.cell at.now.traps own.now past net.old.cells.items
        net.new.cells.items
        result }
    ensures kept { kept net.new ≡ kept net.old }
{
    let read = tell::<K>(net, at.cell + 1, at.traps + 2, own);
    Swept {
        judged: MustCan {
            must: Acts {
                signals: own.must.signals,
                codes: read.sure,
            },
            can: Acts {
                signals: own.can.signals,
                codes: read.possible,
            },
        },
        past,
    }
}
