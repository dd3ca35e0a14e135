//! Where journals and receipts differ.
use rbac_policy::objects::SLOTS;

/// The number that stands for the policy list where a slot is named: the one after the last slot.
pub const POLICY_LIST: u64 = SLOTS as u64;

/// Where the journals of a server and the receipts of its seats differ.
#[derive(Clone, Copy, PartialEq, Eq, Debug)]
pub enum Mismatch {
    /// The entries of this slot's journal are not as many as their receipts; `POLICY_LIST` stands
    /// for the policy list.
    Count { slot: u64 },
    /// A receipt that this seat keeps, of this place of this slot: its entry is not there, another
    /// receipt has the same place, or it breaks the order. `POLICY_LIST` stands for the policy
    /// list, whose places are its versions.
    Receipt { seat: u64, slot: u64, place: u64 },
}
