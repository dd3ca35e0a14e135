//! Relations between the inputs of a module, and the inputs that are offered and not yet taken by
//! an instant.
//!
//! It promises that the pending inputs keep each exclusion at all times; that an offer is refused
//! by the first rule that refuses it, in the order in which they are written down, and by nothing
//! else; and that an instant may take the pending inputs exactly when they keep each implication
//! too. What is pending takes no memory.
#![tactic(auto)]

pub mod laws;
pub mod pending;
pub mod refusal;
pub mod relations;
mod violations;
