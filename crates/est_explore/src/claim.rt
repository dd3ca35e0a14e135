//! What is claimed of all runs.
ghost use Rattle.std.specs.Prelude.{◌≡◌};
ghost use Rattle.est_kernel.specs.Bits.{bits};
ghost use Rattle.est_explore.specs.Claims.{IsClaimToldBy, holds};
ghost use Rattle.est_explore.specs.Explored.{fails};

use crate::one_module::Answer;
use crate::reads::signals_of;
use est_cover::answered::AnsweredInputs;
use est_kernel::mask;
use est_kernel::statement::Test;
use est_meaning::signal_set::{Env, SignalSet};
use est_meaning::status::Status;
use est_rounds::answer::answer_to;

/// What is claimed of all runs.
#[derive(Clone, Copy)]
pub enum Claim<'a> {
    /// No instant is Stuck.
    NeverStuck,
    /// The test holds in each instant.
    Always(&'a Test),
}

/// Whether the test holds where these signals of the interface are present.
fn holds(test: &Test, present: u64) -> bool
    ensures { result ≡ holds test.now (bits present) }
{
    let signals = SignalSet {
        interface: present,
        local: 0,
    };
    let env = Env {
        present: signals,
        possible: signals,
    };
    match answer_to(&env, test) {
        Status::Present => true,
        Status::Absent | Status::Unknown => false,
    }
}

impl<'a> Claim<'a> {
    /// The signals of the interface that tell what the claim asks.
    pub fn signals(&self) -> u64
        ensures { IsClaimToldBy self.now (bits result) }
    {
        match self {
            Claim::NeverStuck => 0,
            Claim::Always(test) => signals_of(test),
        }
    }

    /// Whether the claim fails by what was answered.
    pub fn fails(&self, asked: &AnsweredInputs<Answer>) -> bool
        ensures { result ≡ fails self.now asked.now.inputs asked.now.answer }
    {
        match (self, asked.answer) {
            (Claim::NeverStuck, Answer::Stuck { .. }) => true,
            (Claim::NeverStuck, Answer::Reaction { .. }) => false,
            (Claim::Always(_), Answer::Stuck { .. }) => false,
            (Claim::Always(test), Answer::Reaction { outputs }) => {
                !holds(test, mask::union(asked.inputs, outputs))
            }
        }
    }
}
