//! What a seat keeps of its commands on slots.
ghost use Rattle.std.specs.Prelude.{◌≡◌, ◌<◌, length};
ghost use Rattle.slot_table.specs.Receipts.{Keeps};

use access_core::reply::Reply;
use est_text::identifier::Identifier;
use history_receipts::receipt::SlotReceipt;
use policy_board::board::Board;
use policy_board::board_name::BoardName;
use policy_board::seat::Seat;
use rbac_policy::commands::SessionId;
use std::sync::Wait;

/// If the reply to a command that offers this signal, or none, tells of an entry, has the seat keep
/// a receipt of it, with the next number of the tally.
pub(crate) fn keep<B: BoardName, R: Wait>(
    rt: &R,
    board: &Board<B>,
    seat: &mut Seat<B>,
    slot: u8,
    session: SessionId,
    signal: Option<Identifier>,
    reply: &Reply,
)
    requires room { length seat.old.kept < seat.old.room }
    ensures keeps { Keeps slot session signal reply.now seat.old.kept seat.new.kept }
    ensures same { seat.new ≡ record seat.old { kept = seat.new.kept } }
{
    match reply {
        Reply::Added(added) => {
            let receipt = SlotReceipt {
                slot: u64::from(slot),
                place: added.place,
                version: added.version,
                session: session.number(),
                number: 0,
                word: added.word,
                signal,
            };
            board.number_receipt(rt, seat, receipt);
        }
        Reply::Refused(_)
        | Reply::Login { .. }
        | Reply::Changed { .. }
        | Reply::Look { .. }
        | Reply::Audit { .. }
        | Reply::Check { .. } => {}
    }
}
