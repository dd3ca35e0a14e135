//! In which order the sides of `||`s tell each other: a guess, made once for a kernel.
//!
//! A sweep goes over the sides of nested `||`s in the order of the text, or against it, and learns
//! nothing of what no side emits. In this order each side comes after those that emit what it
//! reads, as far as there is such an order. No answer depends on it.

ghost use Rattle.std.specs.Prelude.{◌≡◌, ◌<◌, ◌≤◌, ◌+◌, length};
ghost use Rattle.est_kernel.specs.Limits.{trap_depth};
ghost use Rattle.est_kernel.specs.View.{term_of};
ghost use Rattle.est_net.specs.Extents.{HasExtents};
ghost use Rattle.est_net.specs.Owners.{statements};

use crate::extents::Extent;
use est_kernel::mask;
use est_kernel::statement::Statement;
use est_meaning::signal_set::{self, SignalSet};
use std::alloc::{AllocError, Global};

/// How often an order has to go against the text, and with it, to be mixed. Where it does so less
/// often, a few sweeps do, if the signals are present.
const FEW_TURNS: usize = 2;

/// The last side of a `||`, counted from 0. Where there are more, it is what is left of the `||`.
pub const LAST_SIDE: usize = 63;

/// An order of the sides of a `||`, those of a `||` that is its second side among them.
#[derive(Clone, Copy)]
pub struct SideOrder {
    /// The number of the `||`.
    pub number: usize,
    /// How many sides are in the order.
    pub count: usize,
    /// The sides, counted from 0 in the order of the text.
    pub sides: [u8; 64],
    /// Whether it often goes against the text, and often with it: a few sweeps don't do then.
    pub is_mixed: bool,
    /// Those that are in the order, a bit for each.
    placed: u64,
    ghost few: { count ≤ 64 },
}

/// What sides read and emit.
#[derive(Drop)]
struct Uses {
    count: usize,
    reads: [SignalSet; 64],
    emits: [SignalSet; 64],
    ghost few: { count ≤ 64 },
}

impl Uses {
    /// Nothing is known of any side.
    fn none() -> Uses {
        Uses {
            count: 0,
            reads: [signal_set::no_signal(); 64],
            emits: [signal_set::no_signal(); 64],
        }
    }

    /// Notes what one more side reads and emits.
    fn push(&mut self, side: &Extent) {
        if self.count < 64 {
            self.reads[self.count] = side.reads;
            self.emits[self.count] = side.emits;
            self.count += 1;
        }
    }

    /// Notes what the sides of a statement read and emit.
    fn add(&mut self, extents: &[Extent], s: &Statement, number: usize, traps: usize)
        requires { HasExtents extents.now number traps s.now }
    {
        match s {
            Statement::Par(p, q) if self.count < LAST_SIDE => {
                self.push(&extents[number + 1]);
                let next = number_past(extents, p, number + 1, traps);
                self.add(extents, q, next, traps)
            }
            _ => self.push(&extents[number]),
        }
    }

    /// Whether a side reads what another emits.
    fn is_told_by(&self, side: usize, other: usize) -> bool
        requires side { side < self.now.count }
        requires other { other < self.now.count }
    {
        signal_set::meets(self.reads[side], self.emits[other])
    }
}

impl SideOrder {
    /// No side of the `||` of this number.
    fn none(number: usize) -> SideOrder {
        SideOrder {
            number,
            count: 0,
            sides: [0; 64],
            is_mixed: false,
            placed: 0,
        }
    }

    /// Puts a side after all that are in the order.
    fn push(&mut self, side: usize)
        requires { side < 64 }
    {
        if self.count < 64 {
            self.sides[self.count] = side as u8;
            self.count += 1;
        }
    }

    /// Puts a side into the order, after those that emit what it reads, as far as `depth` sides
    /// tell one another.
    fn place(&mut self, uses: &Uses, side: usize, depth: usize)
        requires { side < uses.now.count }
    {
        if depth == 0 || mask::has(self.placed, side as u8) {
            return;
        }
        self.placed = mask::with(self.placed, side as u8);
        for other in 0..uses.count {
            if uses.is_told_by(side, other) {
                self.place(uses, other, depth - 1);
            }
        }
        self.push(side);
    }

    /// The sides in an order in which each comes after those that emit what it reads, as far as
    /// there is one.
    fn of(uses: &Uses, number: usize) -> SideOrder {
        let mut order = SideOrder::none(number);
        for side in 0..uses.count {
            order.place(uses, side, 64);
        }
        order.is_mixed = order.turns();
        order
    }

    /// Whether the order often goes against the text, and often with it.
    fn turns(&self) -> bool {
        let mut with_text = 0;
        for n in 1..self.count {
            if self.sides[n - 1] < self.sides[n] {
                with_text += 1;
            }
        }
        with_text > FEW_TURNS && self.count.saturating_sub(with_text) > FEW_TURNS + 1
    }
}

/// The orders of the sides of `||`s that tell each other, in the order of the text.
#[derive(Drop)]
pub struct SideOrders {
    list: Vec<SideOrder>,
    /// How many of them are of `||`s before each statement.
    before: Vec<usize>,
    /// Whether one of them is mixed.
    are_mixed: bool,
}

/// The number of what follows a statement in the text.
fn number_past(extents: &[Extent], p: &Statement, number: usize, traps: usize) -> usize
    requires { HasExtents extents.now number traps p.now }
    ensures { result ≡ number + statements p.now }
{
    number + extents[number].statements
}

impl SideOrders {
    /// Adds the order of the sides of a `||`, if they tell each other.
    fn add_here(
        &mut self,
        extents: &[Extent],
        s: &Statement,
        number: usize,
        traps: usize,
    ) -> Result<(), AllocError>
        requires extents { HasExtents extents.now number traps s.now }
    {
        if !extents[number].tells {
            return Ok(());
        }
        let mut uses = Uses::none();
        uses.add(extents, s, number, traps);
        let order = SideOrder::of(&uses, number);
        self.are_mixed = self.are_mixed || order.is_mixed;
        self.list.push(order)?;
        Ok(())
    }

    /// Adds the orders in two statements that follow each other in the text, of which the second is
    /// this side of a `||`.
    #[cycle(add)]
    fn add_two(
        &mut self,
        extents: &[Extent],
        p: &Statement,
        q: &Statement,
        number: usize,
        traps: usize,
        side: usize,
    ) -> Result<(), AllocError>
        requires first_extents { HasExtents extents.now number traps p.now }
        requires second_extents { HasExtents extents.now (number + statements p.now) traps q.now }
        requires first_traps { traps + trap_depth (term_of p.now) ≤ 62 }
        requires second_traps { traps + trap_depth (term_of q.now) ≤ 62 }
    {
        self.add(extents, p, number, traps, 0)?;
        let next = number_past(extents, p, number, traps);
        self.add(extents, q, next, traps, side)
    }

    /// Adds the orders in a statement, which is this side of a `||`. One that is no second side of
    /// a `||` has the number 0, and so has what is left where a `||` has more sides than an order.
    #[cycle(add)]
    fn add(
        &mut self,
        extents: &[Extent],
        s: &Statement,
        number: usize,
        traps: usize,
        side: usize,
    ) -> Result<(), AllocError>
        requires extents { HasExtents extents.now number traps s.now }
        requires traps { traps + trap_depth (term_of s.now) ≤ 62 }
    {
        self.before.push(self.list.len())?;
        match s {
            Statement::Par(p, q) => {
                if side == 0 {
                    self.add_here(extents, s, number, traps)?;
                }
                let next = if side < LAST_SIDE - 1 { side + 1 } else { 0 };
                self.add_two(extents, p, q, number + 1, traps, next)
            }
            Statement::Seq(p, q) | Statement::Present(_, p, q) => {
                self.add_two(extents, p, q, number + 1, traps, 0)
            }
            Statement::Suspend(_, p) | Statement::Loop(p) | Statement::Local(_, p) => {
                self.add(extents, p, number + 1, traps, 0)
            }
            Statement::Trap(p) => self.add(extents, p, number + 1, traps + 1, 0),
            Statement::Nothing | Statement::Pause(_) | Statement::Emit(_) | Statement::Exit(_) =>
                Ok(()),
        }
    }

    /// The orders of a kernel's statement, or memory was refused.
    pub fn of(alloc: Global, extents: &[Extent], s: &Statement) -> Result<SideOrders, AllocError>
        requires extents { HasExtents extents.now 0 0 s.now }
        requires traps { trap_depth (term_of s.now) ≤ 62 }
    {
        let mut orders = SideOrders {
            list: Vec::new(alloc),
            before: Vec::new(alloc),
            are_mixed: false,
        };
        orders.add(extents, s, 0, 0, 0)?;
        Ok(orders)
    }

    /// How many orders are of `||`s before the statement of this number.
    fn before(&self, number: usize) -> usize {
        if number < self.before.len() {
            self.before[number]
        } else {
            self.list.len()
        }
    }

    /// The order of the `||` of this number, if there is one.
    pub fn get(&self, number: usize) -> Option<SideOrder> {
        let place = self.before(number);
        if place < self.list.len() && self.list[place].number == number {
            Some(self.list[place])
        } else {
            None
        }
    }

    /// Whether there is one.
    pub fn are_some(&self) -> bool {
        !self.list.is_empty()
    }

    /// Whether one of them is mixed.
    pub fn are_mixed(&self) -> bool {
        self.are_mixed
    }
}
