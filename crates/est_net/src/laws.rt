//! The laws of the list of owners.

ghost use Rattle.est_net.specs.Emissions.{EmissionsAreListed};
ghost use Rattle.est_net.specs.Laws.{OwnersAreCounted, EachOwnerHasOneCell, StatementsHaveCells};
ghost use Rattle.est_net.specs.Laws.{OwnersAreRead};

/// There are as many owners as cells.
pub fn owners_are_counted()
    ensures { OwnersAreCounted }
{}

/// Each owner has exactly one cell: each signal that may be emitted, and each kind of cell of each
/// statement in each of its incarnations; and nothing else has one.
pub fn each_owner_has_one_cell()
    ensures { EachOwnerHasOneCell }
{}

/// A statement inside d loops and t traps has (d + 1) (t + 3) cells, and a `signal` has
/// (d + 1) (t + 4).
pub fn statements_have_cells()
    ensures { StatementsHaveCells }
{}

/// In the table read off a list of cells, the cell of an owner is the one at the owner's place.
pub fn owners_are_read()
    ensures { OwnersAreRead }
{}

/// In a sheet that is read off a list of cells, a signal is emitted where the go cell of one of its
/// emissions passes the test.
pub fn emissions_are_listed()
    ensures { EmissionsAreListed }
{}
