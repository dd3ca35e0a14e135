//! A search of states that all have one number.

ghost use Rattle.std.specs.Prelude.{[]};
ghost use Rattle.std.proofs.Common.{rules};

use state_search::search::{Limits, search};
use state_search::transition_system::{SearchState, Step, TransitionSystem};
use std::alloc::AllocError;
use std::hash::{Hash, Hasher};

/// A state of which its hash says nothing.
#[derive(Clone, Copy, PartialEq, Eq)]
struct Alike {
    count: u8,
}

impl Hash for Alike {
    ghost hash_input = { λ x. [] };

    ghost respects_eq = { Prim.search rules };

    fn hash<H: Hasher>(&self, _state: &mut H) {}
}

impl SearchState for Alike {
    ghost exact = { Prim.search rules };
}

/// It counts to three.
struct Counter;

impl TransitionSystem for Counter {
    type State = Alike;

    type Label = u8;

    type Engine = ();

    ghost fits = { λ s x. Unit {0} };

    ghost is_state = { λ s x. Unit {0} };

    ghost does = { λ s x l y. Unit {0} };

    ghost covers = { λ s x steps. Unit {0} };

    ghost apart = { λ s a b. Unit {0} };

    fn steps(
        &self,
        _scratch: &mut (),
        state: &Alike,
        _most: usize,
        steps: &mut Vec<Step<Alike, u8>>,
    ) -> Result<bool, AllocError> {
        let count = state.count;
        let next = if count < 3 {
            Some(Alike { count: count + 1 })
        } else {
            None
        };
        steps.push(Step { label: count, next })?;
        Ok(true)
    }
}

/// States of one number are told apart.
#[test]
fn states_of_one_number(rt: HostRuntime) {
    let limits = Limits {
        states: 9,
        steps: 99,
    };
    let start = Alike { count: 0 };
    let found = search(rt.alloc(), &Counter, &mut (), start, limits).expect(&rt, "room");
    assert_eq!(rt; found.nodes.len(), 4);
    assert_eq!(rt; found.rows.len(), 4);
}
