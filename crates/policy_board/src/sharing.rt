//! That threads may share a board.
ghost use denote.Param.{param};
ghost use denote.Param.Send.{IsSend, IsSync};
ghost use Rattle.policy_board.specs.contracts.board.Board as board;

use crate::board_name::BoardName;
use crate::publisher::Publisher;

/// By its bound the proof learns that values of this type may cross threads.
fn assert_send<T: Send>()
    ensures { IsSend (param 0 T.row) }
{}

/// Tells proofs that threads may share a board. It does nothing.
pub fn boards_are_shared<B: BoardName + Send + Sync>()
    ensures { IsSync (board.the_row (param 0 B.row) ⟦<B as BoardName>⟧) }
{
    assert_send::<Publisher<B>>();
}
