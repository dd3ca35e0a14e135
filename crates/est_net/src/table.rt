//! Ranges of cells, each open or decided: the one assignment that decides a cell, and what is read
//! of many cells at once.

ghost use Rattle.std.specs.Prelude.{◌≡◌, ◌↔◌, ◌<◌, ◌≤◌, ◌+◌, ◌&&◌, true, length, set, slice_get};
ghost use Rattle.std.specs.Prelude.{Some, replicate};
ghost use Rattle.est_net.specs.Cells.{AllDecided, AllOpen, AreFalse, cell_at};
ghost use Rattle.est_net.specs.Cells.{decided, is_known, is_open, known_as};
ghost use Rattle.est_meaning.specs.declared.status.Status.TheVariants.{Unknown};

use est_meaning::status::Status;

/// What a cell with this value knows.
#[inline(always)]
fn knowing(value: bool) -> Status
    ensures { result ≡ known_as value }
{
    if value {
        Status::Present
    } else {
        Status::Absent
    }
}

/// Decides a cell that is open. No other assignment decides a cell.
#[inline(always)]
pub fn decide(cells: &mut [Status], cell: usize, value: bool)
    requires { slice_get cells.old cell ≡ Some Unknown }
    ensures cells { cells.new ≡ set cells.old cell (known_as value) }
    ensures count { decided cells.new ≡ decided cells.old + 1 }
{
    cells[cell] = knowing(value);
}

/// Decides three cells, all of them open, to be false.
#[inline(always)]
fn fill_three(cells: &mut [Status], from: usize)
    requires within { from + 3 ≤ length cells.old }
    requires open { AllOpen from (from + 3) cells.old }
    ensures cells { AreFalse from (from + 3) cells.old cells.new }
    ensures count { decided cells.new ≡ decided cells.old + 3 }
{
    decide(cells, from, false);
    decide(cells, from + 1, false);
    decide(cells, from + 2, false);
}

/// Decides the cells of a range, all of them open, to be false. Three cells, as a statement without
/// parts has inside no trap, are decided one by one: the loop would become a call.
pub fn fill(cells: &mut [Status], from: usize, past: usize)
    requires range { from ≤ past }
    requires within { past ≤ length cells.old }
    requires open { AllOpen from past cells.old }
    ensures cells { AreFalse from past cells.old cells.new }
    ensures count { decided cells.new + from ≡ decided cells.old + past }
{
    if past - from == 3 {
        return fill_three(cells, from);
    }
    for cell in from..past {
        decide(cells, cell, false);
    }
}

/// Opens all cells.
pub fn open_all(cells: &mut [Status])
    ensures { cells.new ≡ replicate (length cells.old) Unknown }
{
    cells.fill(Status::Unknown);
}

/// What a cell knows.
#[inline(always)]
fn read(cells: &[Status], cell: usize) -> Status
    requires { cell < length cells.now }
    ensures { result ≡ cell_at cells.now cell }
{
    cells[cell]
}

/// Whether both hold. With `&` in place of `&&` the compiler looks at many cells at once.
#[inline(always)]
fn both(a: bool, b: bool) -> bool
    ensures { result ≡ (a && b) }
{
    a & b
}

/// Whether a cell is decided.
#[inline(always)]
pub fn is_decided(status: Status) -> bool
    ensures { result ≡ is_known status }
{
    match status {
        Status::Present | Status::Absent => true,
        Status::Unknown => false,
    }
}

/// Whether each cell of a range is decided. It looks at all of them, many at once, since the loop
/// has no other way out.
pub fn all_decided(cells: &[Status], from: usize, past: usize) -> bool
    requires range { from ≤ past }
    requires within { past ≤ length cells.now }
    ensures { (result ≡ true) ↔ AllDecided from past cells.now }
{
    let mut all = true;
    for cell in from..past {
        all = both(all, is_decided(read(cells, cell)));
    }
    all
}

/// Whether a cell is open.
#[inline(always)]
fn is_open(status: Status) -> bool
    ensures { result ≡ is_open status }
{
    match status {
        Status::Present | Status::Absent => false,
        Status::Unknown => true,
    }
}

/// Whether each cell of a range is open. It looks at all of them, as `all_decided` does.
pub fn all_open(cells: &[Status], from: usize, past: usize) -> bool
    requires range { from ≤ past }
    requires within { past ≤ length cells.now }
    ensures { (result ≡ true) ↔ AllOpen from past cells.now }
{
    let mut all = true;
    for cell in from..past {
        all = both(all, is_open(read(cells, cell)));
    }
    all
}
