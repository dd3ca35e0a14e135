//! The names of a library, as its checks need them: sets of them (`set`), their numbers and places
//! (`table`), those that a check looks at where a module is run (`kept`), and which of them are
//! hidden at a place (`open`).

pub mod kept;
pub mod open;
pub mod set;
pub mod table;
