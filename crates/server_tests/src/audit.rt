mod asking;
mod changes;
mod findings;
pub mod journals;
mod left_terms;
mod memory;
