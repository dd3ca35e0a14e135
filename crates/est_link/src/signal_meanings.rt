//! What the signals of a body mean at another place.
ghost use Rattle.std.specs.Prelude.{◌≡◌};
ghost use Rattle.est_kernel.specs.Term.{outer};
ghost use Rattle.est_link.specs.Inner.OpenBodies.{meaning_of, meant_by};

use crate::meaning::{Meaning, Meanings};
use crate::numbers::sum;
use est_reduce::body::BoundSignal;
use std::alloc::AllocError;
use std::rc::Rc;

/// What the signals of a body mean at another place. Listed are the interface signals that the body
/// has (`UsedSignals`), since a module may declare thousands.
#[derive(Drop)]
pub struct SignalMeanings {
    /// For places of the interface, the number in the list of the signal there, if it has one.
    /// Places after the last have none. All runs of a body share these.
    pub numbers: Rc<Vec<Option<u32>>>,
    /// What the listed signals mean.
    pub meanings: Vec<Meaning>,
    /// What the others mean, which the body doesn't have: `tick`.
    pub other: Meaning,
    /// How many local signals lie around the body.
    pub locals: u32,
}

impl SignalMeanings {
    /// What the interface signal at a place means.
    fn outer_meaning(&self, place: u32) -> Meaning
        ensures { meaning_of result ≡ meant_by self.now (outer place) }
    {
        match self.numbers.get(place as usize) {
            Some(Some(number)) => match self.meanings.get(*number as usize) {
                Some(meaning) => *meaning,
                None => self.other,
            },
            _ => self.other,
        }
    }
}

impl Meanings for SignalMeanings {
    ghost means = { λ m. meant_by m };

    fn meaning(&self, signal: BoundSignal) -> Result<Meaning, AllocError> {
        match signal {
            BoundSignal::Outer(place) => Ok(self.outer_meaning(place)),
            BoundSignal::Inner(index) => {
                Ok(Meaning::of(BoundSignal::Inner(sum(self.locals, index)?)))
            }
        }
    }

    fn locals(&self) -> u32 {
        self.locals
    }
}
