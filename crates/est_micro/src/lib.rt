//! The microstep engine: it reacts by deciding the cells of a table, each once, until nothing more
//! can be decided.
//!
//! `Micro` keeps the promise of every engine, for the kernel of its table: an outcome exactly when
//! there is a reaction, and else exactly the undecided outputs. After an outcome each cell is
//! decided, with its value in the reaction. A run takes no memory.
//!
//! A run (`settling`) is asked a `question`. It goes over the statement in sweeps (`sweep_begin`,
//! `sweep_resume`), and tells each open cell what follows from the others. A sweep goes in program
//! order, or visits the second side of each `||` first (`direction`). Where no cell of a statement
//! is decided, as in a first sweep, none is looked at before it is told (`sweep_kind`). Where all
//! cells of a `||`, of one of its sides, or of a statement that goes on are decided, a later sweep
//! only reads them (`decided`). A statement that takes no part is filled at once (`idle`,
//! `extents`). After each sweep the run tells the cells of the signals what is emitted
//! (`outputs`). After a sweep that decided little, passes look again at what reads the signals
//! that were just decided (`passes`, by `pass_begin` and `pass_resume`).
//!
//! Where the `sides` of a `||` tell each other, the table has an order in which they do
//! (`side_order` of `est_net`). A `walk` goes over each `part` of the statement with such a `||`,
//! as they are run, and sweeps the sides one by one in their order (`lead`). It knows after each
//! what is emitted surely, and what is emitted nowhere any more. Then the `||` is told what the
//! codes of its sides say, unless it goes on from its pauses (`closing`). The first run begins so,
//! and each that comes after it where an order goes across the text, or the run before found an
//! absent signal so. Else it does so after a slow sweep, and passes only if that decides nothing.
//! An order is a guess: a bad one costs time, and changes no answer.
//!
//! `learning` tells one cell, `cells` those of one statement; `must_can` puts together what is
//! judged of a statement from what is judged of its parts. `micro` reads the outcome off the cells,
//! and `next_pauses` the pauses. `part_reactions` reacts where only some inputs are known, and
//! `waiting` finds an input that an open test waits for.
//!
//! A run ends as soon as every cell is decided, or after a sweep that decides nothing. That is
//! enough: what a sweep or a pass decides is so, and where a sweep changes nothing, nothing more
//! follows. The law of `laws` says that then nothing is missed.
#![tactic(auto)]

mod cells;
mod closing;
mod decided;
mod direction;
mod extents;
mod idle;
pub mod laws;
mod lead;
mod learning;
pub mod micro;
mod must_can;
mod next_pauses;
mod outputs;
mod part;
mod part_reactions;
mod pass_begin;
mod pass_resume;
mod passes;
mod question;
mod settling;
mod sides;
mod sweep_begin;
mod sweep_kind;
mod sweep_resume;
mod waiting;
mod walk;
