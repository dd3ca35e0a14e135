//! The interface signals that an open body has.
ghost use Rattle.std.specs.Prelude.{◌≡◌, ◌<◌, ℕ, None, true, false, IfOk, OnOk, get_or, length};
ghost use Rattle.est_link.specs.Linking.{body_meant};
ghost use Rattle.est_link.specs.Inner.OpenBodies.{AreMeaningsKept, AreUsed, AreTestsKept};
ghost use Rattle.est_link.specs.Inner.OpenBodies.{HaveGrown, IsBodyKept, IsJointKept, IsKept};
ghost use Rattle.est_link.specs.Inner.OpenBodies.{IsTestKept};
ghost use Rattle.est_link.specs.Inner.OpenBodies.{closed_of, has_number, meant_by};
ghost use Rattle.est_reduce.specs.Views.{bound_joint as joint_view, bound_name as name_view};
ghost use Rattle.est_reduce.specs.Views.{bound_query as query_view};

use crate::meaning::Meaning;
use crate::numbers::small;
use crate::open_body::OpenBody;
use crate::signal_meanings::SignalMeanings;
use est_reduce::body::{BoundOperands, BoundSignal, BoundTest};
use std::alloc::{AllocError, Global};
use std::rc::Rc;

/// The interface signals that a body has, each with a number, in the order in which they are met.
/// Those that only a meaning of its runs has, though that is `tick`, are among them.
#[derive(Drop)]
pub struct UsedSignals {
    /// For places of the interface, the number of the signal there, if it has one. Places after the
    /// last have none.
    numbers: Vec<Option<u32>>,
    /// Each signal that has a number means itself.
    meanings: Vec<Meaning>,
}

impl UsedSignals {
    fn new(alloc: Global) -> UsedSignals
        ensures none { (i : ℕ) → has_number result i ≡ false }
        ensures own { AreUsed result }
    {
        UsedSignals {
            numbers: Vec::new(alloc),
            meanings: Vec::new(alloc),
        }
    }

    /// Whether the interface signal at a place has a number.
    fn has_number(&self, place: usize) -> bool
        ensures { result ≡ has_number self.now place }
    {
        match self.numbers.get(place) {
            Some(number) => number.is_some(),
            None => false,
        }
    }

    /// Makes room for the number of the signal at a place.
    fn make_room(&mut self, place: usize) -> Result<(), AllocError>
        requires { place < usize.MAX }
        ensures room { OnOk result (place < length self.new.numbers.items) }
        ensures numbers { OnOk result ((k : ℕ) → get_or self.new.numbers.items k None
            ≡ get_or self.old.numbers.items k None) }
        ensures meanings { OnOk result (self.new.meanings ≡ self.old.meanings) }
    {
        if self.numbers.len() <= place {
            self.numbers.resize(place + 1, None)?;
        }
        Ok(())
    }

    /// Gives the next number to the interface signal at a place.
    fn add_number(&mut self, place: u32) -> Result<(), AllocError>
        ensures grown { OnOk result (HaveGrown self.old self.new) }
        ensures has { OnOk result (has_number self.new place ≡ true) }
    {
        self.make_room(place as usize)?;
        let number = small(self.meanings.len())?;
        self.meanings.push(Meaning::of(BoundSignal::Outer(place)))?;
        self.numbers[place as usize] = Some(number);
        Ok(())
    }

    /// Adds a signal, if it is one of the interface and is not there.
    fn add(&mut self, signal: BoundSignal) -> Result<(), AllocError>
        ensures grown { OnOk result (HaveGrown self.old self.new) }
        ensures has { OnOk result (IsKept self.new (name_view signal)) }
    {
        match signal {
            BoundSignal::Outer(place) => {
                if self.has_number(place as usize) {
                    return Ok(());
                }
                self.add_number(place)
            }
            BoundSignal::Inner(_) => Ok(()),
        }
    }

    /// Adds the signals of a test.
    #[cycle(tests)]
    fn add_test(&mut self, test: &BoundTest) -> Result<(), AllocError>
        ensures grown { OnOk result (HaveGrown self.old self.new) }
        ensures has { OnOk result (IsTestKept self.new (query_view test.now)) }
    {
        match test {
            BoundTest::Tick => Ok(()),
            BoundTest::Of(signal) => self.add(*signal),
            BoundTest::Not(inner) => self.add_test(inner),
            BoundTest::Joined(_, operands) => self.add_operands(operands),
        }
    }

    /// Adds the signals of tests.
    #[cycle(tests)]
    fn add_tests(&mut self, tests: &[BoundTest]) -> Result<(), AllocError>
        ensures grown { OnOk result (HaveGrown self.old self.new) }
        ensures has { OnOk result (AreTestsKept self.new tests.now) }
    {
        for test in tests {
            self.add_test(test)?;
        }
        Ok(())
    }

    /// Adds the signals of operands.
    #[cycle(tests)]
    fn add_operands(&mut self, operands: &BoundOperands) -> Result<(), AllocError>
        ensures grown { OnOk result (HaveGrown self.old self.new) }
        ensures has { OnOk result (IsJointKept self.new (joint_view operands.now)) }
    {
        self.add_test(&operands.first)?;
        self.add_test(&operands.second)?;
        self.add_tests(&operands.later)?;
        Ok(())
    }

    /// Adds the signals of the meanings of a run.
    fn add_meanings(&mut self, run: &SignalMeanings) -> Result<(), AllocError>
        ensures grown { OnOk result (HaveGrown self.old self.new) }
        ensures has { OnOk result (AreMeaningsKept self.new run.now) }
    {
        for meaning in &run.meanings {
            self.add(meaning.signal)?;
        }
        self.add(run.other.signal)?;
        Ok(())
    }

    /// Adds the signals of a body.
    fn add_body(&mut self, body: &OpenBody) -> Result<(), AllocError>
        ensures grown { OnOk result (HaveGrown self.old self.new) }
        ensures has { OnOk result (IsBodyKept self.new (closed_of body.now)) }
    {
        match body {
            OpenBody::Nothing | OpenBody::Pause | OpenBody::Halt | OpenBody::Exit(_) => Ok(()),
            OpenBody::Emit(signal) | OpenBody::Sustain(signal) => self.add(*signal),
            OpenBody::Await(wait) => self.add_test(&wait.test),
            OpenBody::Present(test, p, q) => {
                self.add_test(test)?;
                self.add_body(p)?;
                self.add_body(q)?;
                Ok(())
            }
            OpenBody::Watched(_, wait, p) => {
                self.add_test(&wait.test)?;
                self.add_body(p)?;
                Ok(())
            }
            OpenBody::LoopEach(test, p) => {
                self.add_test(test)?;
                self.add_body(p)?;
                Ok(())
            }
            OpenBody::Loop(p) | OpenBody::Trap(p) | OpenBody::Signal(_, p) => self.add_body(p),
            OpenBody::Seq(p, q) | OpenBody::Par(p, q) => {
                self.add_body(p)?;
                self.add_body(q)?;
                Ok(())
            }
            OpenBody::Run(_, run) => self.add_meanings(run),
        }
    }
}

/// Meanings by which the signals of a body mean themselves.
///
/// # Errors
///
/// `AllocError` where memory is refused.
pub fn own_meanings(alloc: Global, body: &OpenBody) -> Result<SignalMeanings, AllocError>
    ensures { IfOk result (λ r. body_meant (meant_by r) (closed_of body.now) ≡ closed_of body.now) }
{
    let mut own = UsedSignals::new(alloc);
    own.add_body(body)?;
    Ok(SignalMeanings {
        numbers: Rc::new(alloc, own.numbers)?,
        meanings: own.meanings,
        other: Meaning::TICK,
        locals: 0,
    })
}
