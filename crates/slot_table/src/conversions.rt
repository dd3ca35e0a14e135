//! The refusals of the board, as refusals of `access_core`.
ghost use Rattle.std.specs.Prelude.{◌≡◌};
ghost use Rattle.slot_table.specs.Conversions.{refusal_of_board};

use access_core::refusal::Refusal;
use policy_board::refusal::BoardRefusal;

/// The refusal of a call of the board.
pub fn refusal_of_board(refusal: BoardRefusal) -> Refusal
    ensures { result ≡ refusal_of_board refusal }
{
    match refusal {
        BoardRefusal::Policy(refusal) => Refusal::Policy(refusal),
        BoardRefusal::JournalFull => Refusal::JournalFull,
        BoardRefusal::Behind { found, seen } => Refusal::Behind { found, seen },
        BoardRefusal::Memory => Refusal::Memory,
    }
}
