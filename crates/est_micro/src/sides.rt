//! The sides of a `||`, those of a `||` that is its second side among them. Where there are more
//! than an order may have, the last one is what is left of the `||`.

ghost use Rattle.std.specs.Prelude.{◌≡◌, ◌<◌, ◌≤◌, ◌+◌, length, IfSome};
ghost use Rattle.est_kernel.specs.Limits.{trap_depth};
ghost use Rattle.est_kernel.specs.Masks.{FitsMasks};
ghost use Rattle.est_kernel.specs.View.{term_of};
ghost use Rattle.est_cells.specs.Tables.{sheet_size};
ghost use Rattle.est_kernel.specs.declared.statement.Statement.TheVariants.{Par'};
ghost use Rattle.est_net.specs.Extents.{HasExtents};
ghost use Rattle.est_micro.specs.Inner.Parts.{AreTwo};
ghost use Rattle.est_micro.specs.Inner.Sides.{AreSidesOf, IsOneOf, IsSideOf};

use crate::cells::StatementPlace;
use crate::extents::{number_after, past};
use est_kernel::statement::Statement;
use est_net::net::Net;
use est_net::side_order::LAST_SIDE;

/// A side, its number, and where its cells begin.
#[derive(Clone, Copy)]
pub struct Side<'a> {
    pub statement: &'a Statement,
    pub number: usize,
    pub cell: usize,
}

/// Sides, in the order of the text.
#[derive(Drop)]
pub struct Sides<'a> {
    list: [Side<'a>; 64],
    count: usize,
}

impl<'a> Sides<'a> {
    /// No side, and room for some.
    fn none(any: Side<'a>) -> Sides<'a>
        ensures { result.count ≡ 0 }
    {
        Sides {
            list: [any; 64],
            count: 0,
        }
    }

    /// Adds a side. One for which there is no room is left out.
    fn push(&mut self, side: Side<'a>)
        ensures { (xs at s : _) → IsOneOf xs at s side.entry
            → AreSidesOf xs at s self.old.list self.old.count
            → AreSidesOf xs at s self.new.list self.new.count }
    {
        let count = self.count;
        if count < 64 {
            let list = &mut self.list[..];
            list[count] = side;
            self.count = count + 1;
        }
    }

    /// Adds the sides of the statement of this number whose cells begin here. It is that at the
    /// top, or its second side, and so on.
    fn add(&mut self, net: &Net, top: &StatementPlace, number: usize, cell: usize, s: &'a Statement)
        requires fits { FitsMasks s.now }
        requires extents { HasExtents net.now.extents.items number top.now.traps s.now }
        requires within { cell + sheet_size top.now.main s.now top.now.traps
            ≤ length net.now.cells.items }
        requires traps { top.now.traps + trap_depth (term_of s.now) ≤ 62 }
        ensures { (r : _) → IsSideOf net.now.extents.items top.now r s.now number cell
            → AreSidesOf net.now.extents.items top.now r self.old.list self.old.count
            → AreSidesOf net.now.extents.items top.now r self.new.list self.new.count }
    {
        match s {
            Statement::Par(p, q) if self.count < LAST_SIDE => {
                let place = StatementPlace {
                    number: number + 1,
                    cell: cell + top.traps + 3,
                    ..*top
                };
                self.push(Side {
                    statement: p,
                    number: place.number,
                    cell: place.cell,
                });
                let next_number = number_after(net, &place, p);
                let next_cell = past(net, &place, p);
                self.add(net, top, next_number, next_cell, q)
            }
            _ => self.push(Side {
                statement: s,
                number,
                cell,
            }),
        }
    }

    /// The sides of the `||` of these two statements at this place.
    pub fn of(net: &Net, at: &StatementPlace, p: &'a Statement, q: &'a Statement) -> Sides<'a>
        requires { AreTwo net.now.extents.items (length net.now.cells.items) at.now p.now q.now }
        ensures { (a b : _) → AreSidesOf net.now.extents.items at.now (Par' a p.now b q.now)
            result.list result.count }
    {
        let place = StatementPlace {
            number: at.number + 1,
            cell: at.cell + at.traps + 3,
            ..*at
        };
        let first = Side {
            statement: p,
            number: place.number,
            cell: place.cell,
        };
        let mut sides = Sides::none(first);
        sides.push(first);
        let next_number = number_after(net, &place, p);
        let next_cell = past(net, &place, p);
        sides.add(net, at, next_number, next_cell, q);
        sides
    }

    /// The side of this number, if there is one.
    pub fn get(&self, n: usize) -> Option<Side<'a>>
        ensures { (xs at s : _) → AreSidesOf xs at s self.now.list self.now.count
            → IfSome result (IsOneOf xs at s) }
    {
        let list = &self.list[..];
        if n < self.count && n < 64 {
            Some(list[n])
        } else {
            None
        }
    }
}
