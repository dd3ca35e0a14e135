//! An audit of journals: whether each entry was allowed, from the journals alone.
//!
//! `audit_journals` replays the policy list through the policy step, and each slot's journal
//! through the slot step on a slot of its own. Of a step it also asks the plain engine, if local
//! signals nest at most six deep (`second_engine`). It answers the first finding. If there is no
//! finding, then the list begins with the opening entries, each later entry is one that the policy
//! step gave, and each entry of a slot is the one that the slot step added at its version. `report`
//! is the text of such an audit.
#![tactic(auto)]

pub mod audit;
pub mod finding;
pub mod laws;
mod policy_audit;
pub mod reports;
mod second_engine;
mod slot_audit;
