//! The laws of what is read. Each function does nothing but call other laws: its contract is the
//! law.

ghost use Rattle.lab_instant.specs.Laws.{CellsAreMeant, GoIsTheSame};

use est_net::laws::owners_are_read;

/// A cell is open exactly where the meaning leaves it undecided.
pub fn cells_are_meant()
    ensures { CellsAreMeant }
{
    owners_are_read();
}

/// A statement that is told to have gone on gave its code and was not begun in one incarnation.
pub fn go_is_the_same()
    ensures { GoIsTheSame }
{}
