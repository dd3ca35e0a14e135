//! The name of a board, by which its parts know that they are of one list.
use std::marker::Brand;

/// The name of a board, as a type: by it the board's parts know that they are of one list. It is
/// never looked at when the program runs.
pub trait BoardName {
    ghost use Rattle.logbook.specs.Pages.{Book};

    // Which book the board's list lies in.
    ghost book: { Book };
}

/// A program passes `Brand` where a function wants the name of a new board. The book below is only
/// a placeholder. The function is proved for a board of any book, and the proof of the call picks
/// one: that of the list that was just begun, by `ghosts-serve_source` in
/// proofs/server/serve/Invariants of `program_run`. Without a pick the call would have the book
/// below, and what it requires, that the new list lies in the board's book, could not be proved.
impl BoardName for Brand {
    ghost book = { record { number = 0; log_name = 0; cells_name = 0 } };
}
