//! What a seat is told, and what it tells.
ghost use Rattle.std.specs.Prelude.{◌≡◌, ◌⊎◌, max, length};
ghost use Rattle.rbac_admin.specs.PolicyLists.{Begins};
ghost use Rattle.policy_board.specs.SeatState.{KeepsReceipts};

use history_receipts::receipt::Kept;
use policy_board::board_name::BoardName;
use policy_board::seat::{Acceptance, Seat};
use rbac_policy::commands::SessionId;

/// The session that an accepted policy command made.
pub fn session_of<B: BoardName>(acceptance: &Acceptance<B>) -> Option<SessionId>
    ensures { result ≡ acceptance.now.session }
{
    acceptance.session()
}

/// The receipts of the seat's calls, the oldest first.
pub fn receipts<B: BoardName>(seat: &Seat<B>) -> &[Kept]
    ensures { result.now ≡ seat.now.kept }
{
    seat.receipts()
}

/// The seat learns of the list of an answer.
pub fn learn<B: BoardName>(seat: &mut Seat<B>, acceptance: Acceptance<B>)
    ensures before { Begins seat.old.known seat.new.known }
    ensures told { Begins acceptance.list seat.new.known }
    ensures one { (seat.new.known ≡ seat.old.known) ⊎ (seat.new.known ≡ acceptance.list) }
    ensures seen { seat.new.seen ≡ max seat.old.seen (length acceptance.list) }
    ensures read { seat.new.read ≡ seat.old.read }
    ensures kept { KeepsReceipts seat.old seat.new }
{
    seat.learn(acceptance);
}
