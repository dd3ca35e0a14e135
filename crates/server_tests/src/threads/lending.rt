//! A table of slots that threads are lent.
ghost use denote.Param.{param};
ghost use denote.Param.Send.{IsSend};

use policy_board::board_name::BoardName;
use slot_table::table::SlotTable;

/// What threads are lent: a value of this type. Nothing else is known of the type that lends it,
/// except that threads may share it.
pub(crate) trait Lends<T> {
    /// The value.
    fn lent(&self) -> &T;
}

impl<B: BoardName> Lends<SlotTable<B>> for SlotTable<B> {
    fn lent(&self) -> &SlotTable<B> {
        self
    }
}

/// Tells proofs that values of this type may cross threads. It does nothing.
pub(crate) fn assert_send<T: Send>()
    ensures { IsSend (param 0 T.row) }
{}
