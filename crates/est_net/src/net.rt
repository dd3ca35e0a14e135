//! The table of cells of a kernel.

ghost use Rattle.std.specs.Prelude.{◌≡◌, ◌↔◌, ◌<◌, ◌≤◌, ◌+◌, ◌*◌, ◌%◌, ◌^◌, ◌&&◌, true, length};
ghost use Rattle.std.specs.Prelude.{set, not, ℕ, Some, IfNone, IfOk, IfSome, option_map, replicate};
ghost use Rattle.std.specs.Prelude.{slice_get};
ghost use Rattle.std.specs.List.{list_any};
ghost use Rattle.est_kernel.specs.Bits.{bits};
ghost use Rattle.est_kernel.specs.Interfaces.{emittable};
ghost use Rattle.est_meaning.specs.Rounds.{how_many};
ghost use Rattle.est_meaning.specs.declared.status.Status.TheVariants.{Unknown};
ghost use Rattle.est_cells.specs.Tables.{is_possible, is_sure};
ghost use Rattle.est_net.specs.CellSets.{AreTrueCells, AreTrueCells-prop, IsFirstIn, NoneIn};
ghost use Rattle.est_net.specs.Cells.{AllDecided, AllOpen, AreFalse, NoneTrue, cell_at, decided};
ghost use Rattle.est_net.specs.Cells.{is_known, known_as, true_at, value_of};
ghost use Rattle.est_net.specs.Emissions.{emissions, is_of};
ghost use Rattle.est_net.specs.Extents.{HasExtents, extent_at};
ghost use Rattle.est_net.specs.Layout.{cell_count, output_count};
ghost use Rattle.est_net.specs.Reach.{IsReachOf};

use crate::cell_set::CellSet;
use crate::emissions::{Emission, Emitted, emissions_of, without_emitted};
use crate::extents::{Extent, extents_of};
use crate::reach::Reach;
use crate::side_order::SideOrders;
use crate::table;
use est_kernel::interface::Interface;
use est_kernel::kernel::Kernel;
use est_kernel::mask;
use est_meaning::status::Status;
use std::alloc::{AllocError, Global};

/// The table of cells of a kernel.
#[derive(Drop)]
pub struct Net {
    cells: Vec<Status>,
    /// Those that are true.
    true_cells: CellSet,
    /// How many of them are open.
    open_count: usize,
    /// How many cells were decided before they were last opened, modulo 2^64.
    earlier: u64,
    /// The signals of the interface that may be emitted, a bit for each.
    emittable: u64,
    /// How many of them there are. Their cells come first.
    output_count: usize,
    /// What may be emitted in an instant.
    reach: Reach,
    /// What is known of each statement, in the order of the text.
    extents: Vec<Extent>,
    /// The emissions of signals of the interface, in the order of their cells.
    emissions: Vec<Emission>,
    /// In which order the sides of its `||`s tell each other.
    orders: SideOrders,
    /// All others are decided.
    ghost counted: { decided cells.items + open_count ≡ length cells.items },
    ghost marks: { AreTrueCells true_cells.words.items cells.items } by { AreTrueCells-prop
        true_cells.words.items cells.items },
    ghost room: { length cells.items ≤ 64 * length true_cells.words.items },
}

/// How many signals up to a place are in the mask.
fn rank(signals: u64, places: usize) -> usize
    requires { places ≤ 64 }
    ensures count { result ≡ how_many (bits signals) places }
    ensures bound { result ≤ places }
{
    let mut count = 0;
    for n in 0..places {
        if mask::has(signals, n as u8) {
            count += 1;
        }
    }
    count
}

/// The open cells of as many signals and of a kernel's statement, or memory was refused.
fn open_cells(alloc: Global, outputs: usize, root: &Extent) -> Result<Vec<Status>, AllocError>
    ensures { IfOk result (λ cells. cells.items ≡ replicate (outputs + root.now.main) Unknown) }
{
    match outputs.checked_add(root.main) {
        Some(count) => vec![in alloc; Status::Unknown; count],
        None => Err(AllocError),
    }
}

impl Net {
    ghost use Rattle.est_net.specs.Kept.{kept, reopened};

    /// The table of a kernel, all cells open, or memory was refused.
    pub fn build(alloc: Global, kernel: &Kernel) -> Result<Net, AllocError>
        ensures cells { IfOk result (λ net. net.cells.items
            ≡ replicate (cell_count kernel.now) Unknown) }
        ensures signals { IfOk result (λ net. bits net.emittable ≡ emittable kernel.now.interface) }
        ensures outputs { IfOk result (λ net. net.output_count
            ≡ output_count kernel.now.interface) }
        ensures reach { IfOk result (λ net. IsReachOf net.reach kernel.now.root) }
        ensures extents { IfOk result (λ net. HasExtents net.extents.items 0 0 kernel.now.root) }
        ensures emissions { IfOk result (λ net. net.emissions.items
            ≡ emissions true kernel.now.root (output_count kernel.now.interface) 0) }
    {
        let signals = kernel.interface().emittable();
        let outputs = rank(signals, kernel.interface().len());
        let extents = extents_of(alloc, kernel.root())?;
        let cells = open_cells(alloc, outputs, &extents[0])?;
        let reach = Reach::of(alloc, kernel.root())?;
        let emissions = emissions_of(alloc, kernel.root(), outputs)?;
        let orders = SideOrders::of(alloc, &extents, kernel.root())?;
        Ok(Net {
            true_cells: CellSet::with_room(alloc, cells.len())?,
            open_count: cells.len(),
            cells,
            earlier: 0,
            emittable: signals,
            output_count: outputs,
            reach,
            extents,
            emissions,
            orders,
        })
    }

    /// How many cells there are.
    pub fn cells(&self) -> usize
        ensures { result ≡ length self.now.cells.items }
    {
        self.cells.len()
    }

    /// The signals of the interface that may be emitted, a bit for each.
    pub fn emittable(&self) -> u64
        ensures { result ≡ self.now.emittable }
    {
        self.emittable
    }

    /// How many of the cells are of signals of the interface. They come first.
    pub fn output_count(&self) -> usize
        ensures { result ≡ self.now.output_count }
    {
        self.output_count
    }

    /// What may be emitted in an instant.
    pub fn reach(&self) -> &Reach
        ensures { result.now ≡ self.now.reach }
    {
        &self.reach
    }

    /// What is known of the statement of this number, in the order of the text.
    #[inline(always)]
    pub fn extent(&self, number: usize) -> &Extent
        requires { number < length self.now.extents.items }
        ensures { result.now ≡ extent_at self.now.extents.items number }
    {
        &self.extents[number]
    }

    /// In which order the sides of its `||`s tell each other.
    pub fn orders(&self) -> &SideOrders {
        &self.orders
    }

    /// What a cell knows. One that isn't there is never true.
    #[inline(always)]
    fn status_or_absent(&self, cell: usize) -> Status
        ensures { result ≡ cell_at self.now.cells.items cell }
    {
        if cell < self.cells.len() {
            self.cells[cell]
        } else {
            Status::Absent
        }
    }

    /// Which signals of the interface are emitted, by the go cells of their emissions.
    pub fn emitted(&self) -> Emitted
        ensures sure { (n : ℕ) → bits result.sure n
            ≡ list_any (is_of is_sure (cell_at self.now.cells.items) n) self.now.emissions.items }
        ensures possible { (n : ℕ) → bits result.possible n
            ≡ list_any (is_of is_possible (cell_at self.now.cells.items) n)
            self.now.emissions.items }
    {
        let mut said = Emitted::nothing();
        for emission in &self.emissions {
            said = said.beside(emission.signal, self.status_or_absent(emission.go));
        }
        said
    }

    /// Those of these signals of the interface that no emission may emit, by the go cells of the
    /// emissions.
    pub fn silent_among(&self, signals: u64) -> u64
        ensures { (n : ℕ) → bits result n ≡ (bits signals n
            && not (list_any (is_of is_possible (cell_at self.now.cells.items) n)
            self.now.emissions.items)) }
    {
        let mut silent = signals;
        for emission in &self.emissions {
            if mask::has(silent, emission.signal.index) {
                let go = self.status_or_absent(emission.go);
                silent = without_emitted(silent, emission.signal, go);
            }
        }
        silent
    }

    /// How many cells are decided.
    pub fn steps(&self) -> usize
        ensures count { result ≡ decided self.now.cells.items }
        ensures bound { result ≤ length self.now.cells.items }
    {
        self.cells.len() - self.open_count
    }

    /// How many cells were ever decided, modulo 2^64, each as often as it was: `clear` takes none
    /// of them back.
    pub fn writes(&self) -> u64
        ensures { result ≡ (self.now.earlier + decided self.now.cells.items) % 2 ^ 64 }
    {
        self.earlier.wrapping_add(self.steps() as u64)
    }

    /// What a cell knows.
    #[inline(always)]
    pub fn status(&self, cell: usize) -> Status
        requires { cell < length self.now.cells.items }
        ensures { result ≡ cell_at self.now.cells.items cell }
    {
        self.cells[cell]
    }

    /// The value of a cell, if it is decided.
    pub fn value(&self, cell: usize) -> Option<bool>
        requires { cell < length self.now.cells.items }
        ensures { option_map value_of (slice_get self.now.cells.items cell) ≡ Some result }
    {
        match self.cells[cell] {
            Status::Present => Some(true),
            Status::Absent => Some(false),
            Status::Unknown => None,
        }
    }

    /// Whether a cell is decided.
    pub fn is_decided(&self, cell: usize) -> bool
        requires { cell < length self.now.cells.items }
        ensures { result ≡ is_known (cell_at self.now.cells.items cell) }
    {
        table::is_decided(self.cells[cell])
    }

    /// Whether each cell of a range is decided.
    pub fn all_decided(&self, from: usize, past: usize) -> bool
        requires range { from ≤ past }
        requires within { past ≤ length self.now.cells.items }
        ensures { (result ≡ true) ↔ AllDecided from past self.now.cells.items }
    {
        table::all_decided(self.cells.as_slice(), from, past)
    }

    /// Whether each cell of a range is open.
    pub fn all_open(&self, from: usize, past: usize) -> bool
        requires range { from ≤ past }
        requires within { past ≤ length self.now.cells.items }
        ensures { (result ≡ true) ↔ AllOpen from past self.now.cells.items }
    {
        table::all_open(self.cells.as_slice(), from, past)
    }

    /// The first cell of a range that is true.
    pub fn first_true(&self, from: usize, past: usize) -> Option<usize>
        requires { past ≤ length self.now.cells.items }
        ensures some { IfSome result (IsFirstIn (true_at self.now.cells.items) from past) }
        ensures none { IfNone result (NoneIn (true_at self.now.cells.items) from past) }
    {
        self.true_cells.first_in(from, past)
    }

    /// Whether no cell of a range is true.
    pub fn has_no_true(&self, from: usize, past: usize) -> bool
        requires { past ≤ length self.now.cells.items }
        ensures { (result ≡ true) ↔ NoneTrue from past self.now.cells.items }
    {
        self.first_true(from, past).is_none()
    }

    /// Decides a cell that is open. No other cell changes.
    #[inline(always)]
    pub fn write(&mut self, cell: usize, value: bool)
        requires { slice_get self.old.cells.items cell ≡ Some Unknown }
        ensures cells { self.new.cells.items ≡ set self.old.cells.items cell (known_as value) }
        ensures count { decided self.new.cells.items ≡ decided self.old.cells.items + 1 }
        ensures kept { kept self.new ≡ kept self.old }
    {
        self.true_cells.insert_if(value, cell);
        table::decide(self.cells.as_mut_slice(), cell, value);
        self.open_count -= 1;
    }

    /// Decides the cells of a range, all of them open, to be false: as many writes as it has cells.
    /// No other cell changes.
    pub fn fill(&mut self, from: usize, past: usize)
        requires range { from ≤ past }
        requires within { past ≤ length self.old.cells.items }
        requires open { AllOpen from past self.old.cells.items }
        ensures cells { AreFalse from past self.old.cells.items self.new.cells.items }
        ensures count { decided self.new.cells.items + from
            ≡ decided self.old.cells.items + past }
        ensures kept { kept self.new ≡ kept self.old }
    {
        table::fill(self.cells.as_mut_slice(), from, past);
        self.open_count -= past - from;
    }

    /// Opens all cells. The number of writes stays.
    pub fn clear(&mut self)
        ensures cells { self.new.cells.items
            ≡ replicate (length self.old.cells.items) Unknown }
        ensures kept { kept self.new ≡ reopened self.old }
    {
        self.earlier = self.earlier.wrapping_add(self.steps() as u64);
        table::open_all(self.cells.as_mut_slice());
        self.open_count = self.cells.len();
        self.true_cells.clear();
    }
}
