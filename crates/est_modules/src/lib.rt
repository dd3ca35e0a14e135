//! The modules of a library: what each is, where names stand in it, what they mean there, and which
//! modules it runs.
//!
//! A `LibraryModule` is a module of the tree with its interface at hand; `collecting` makes them.
//! The definitions in `specs/` say what stands where (`Occurrences`), what a module is (`Modules`,
//! `Derived`) and what a name means at a place (`Visible`). One walk serves all that goes over a
//! body: it visits each place in the order of the text, with the declarations around it.
//!
//! `module_order` puts the modules into an order in which each stands after all that it runs, or
//! answers the first from which a chain of runs leads back to it. It reads off which modules each
//! runs, and asks `est_order`, which knows places alone.
//!
//! For the checks of `est_checks` the names of a library are numbered once (`names::table`). A set
//! of names is then a row of words (`names::set`). `names::kept` has, for each module, the names
//! that a check looks at where the module is run; `names::open` tells which names are hidden at a
//! place.
#![tactic(auto)]

pub mod collecting;
pub mod interface;
pub mod library_modules;
pub mod module_order;
pub mod names;
pub mod relations;
pub mod renamings;
pub mod scope;
mod test_walk;
pub mod visibility;
pub mod visit;
pub mod walk;
