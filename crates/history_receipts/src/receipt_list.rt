//! The list of a seat's receipts.
ghost use Rattle.std.specs.Prelude.{◌≡◌};

use crate::receipt::Kept;
use std::marker::Model;

/// The most seats that a server may have.
pub const SEATS: usize = rbac_policy::sizes::SEATS;

/// The receipts of one seat, in the order of its calls. A contract sees the list of the receipts.
#[derive(Drop)]
pub struct Receipts {
    receipts: Vec<Kept>,
}

impl Model for Receipts {
    ghost use Rattle.std.specs.Prelude.{List};
    ghost use Rattle.history_receipts.specs.declared.receipt.Kept.{Kept};

    ghost Value = { List Kept };

    ghost view = { λ r. r.receipts.items };
}

impl Receipts {
    /// These receipts, the oldest first.
    pub fn from_vec(receipts: Vec<Kept>) -> Receipts
        ensures { result ≡ receipts.items }
    {
        Receipts { receipts }
    }

    /// The receipts, the oldest first.
    pub fn as_slice(&self) -> &[Kept]
        ensures { result.now ≡ self.now }
    {
        self.receipts.as_slice()
    }
}
