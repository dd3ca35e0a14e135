//! A module whose runs are linked in: its interface, its relations, and its flat body.
ghost use Rattle.est_relations.specs.Keeping.{AreOverInputs};
ghost use Rattle.est_reduce.specs.Bound.{IsBound};
ghost use Rattle.est_reduce.specs.Views.{body_of};
ghost use Rattle.est_reduce.specs.Facts.{IsBound-prop};

use crate::body::Body;
use est_kernel::interface::Interface;
use est_relations::relations::Relations;

/// A flat module: what linking makes of a library, and reduction makes a kernel of.
#[derive(Drop)]
pub struct Flat {
    /// Its signals, in declaration order.
    pub interface: Interface,
    /// The relations between what may be offered to it, in the order of the text.
    pub relations: Relations,
    /// What it does.
    pub body: Body,
    /// Each signal of a relation is an input or an inputoutput.
    pub ghost over_inputs: { AreOverInputs interface relations },
    /// Every name of the body is bound.
    pub ghost bound: { IsBound interface 0 0 (body_of body) } by { IsBound-prop
        interface 0 0 (body_of body) },
}
