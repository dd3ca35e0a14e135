//! The module that is loaded, and where it stood after each instant.

ghost use Rattle.std.specs.Prelude.{◌≡◌, ◌<◌, Some, Err, length, MatchResult, IfOk, IfErr, map};
ghost use Rattle.std.specs.Prelude.{slice_get};
ghost use Rattle.std.specs.List.{Contains};
ghost use Rattle.est_meaning.specs.States.{IsState};
ghost use Rattle.reactor_core.specs.declared.refusal.ModuleRefusal.TheVariants as of_module;
ghost use Rattle.access_core.specs.declared.refusal.Refusal.TheVariants as refusal;
ghost use Rattle.lab_instant.specs.Instants.{IsFor};
ghost use Rattle.reactor_core.specs.Standing.{inputs_of_module};
ghost use Rattle.lab_run.specs.Walking.{AreOffered, GoesBack, IsInstantAt, IsInstantOf, Makes};
ghost use Rattle.lab_run.specs.Walking.{MayTake, NameAnswer, StandsAt, Tries, at_start};
ghost use Rattle.lab_run.specs.Walking.{states_after};

use crate::lab::LabReply;
use access_core::refusal::Refusal;
use est_kernel::state::{Inputs, State};
use est_relations::pending::Pending;
use est_relations::refusal::PendingRefusal;
use est_text::identifier::Identifier;
use lab_instant::instant::InstantReader;
use lab_instant::seen::Instant;
use lab_lines::inside::{back_line, instant_line};
use lab_ties::stuck::ties_after;
use reactor_core::kernel_module::Module;
use reactor_core::refusal::ModuleRefusal;
use std::alloc::{AllocError, Global};
use std::marker::Model;

/// A module with the states in which it stood, of which the last is where it stands. A contract
/// sees these two.
#[derive(Drop)]
pub struct SteppedModule {
    loaded: Module,
    inside: InstantReader,
    states: Vec<State>,
}

impl Model for SteppedModule {
    ghost use Rattle.std.specs.Coded.{codes};
    ghost use Rattle.reactor_core.specs.contracts.kernel_module.Module as held;
    ghost use Rattle.lab_run.specs.Walking.{AreLoaded, SteppedState};

    ghost Value = { SteppedState };

    ghost coded = { Prim.hlevel (codes, held.the_row.coded) };

    ghost view = { λ l. record { loaded = l.loaded; states = l.states.items } };

    ghost invariant = { λ l. AreLoaded l.loaded l.inside l.states.items };
}

/// Why inputs may not be offered.
pub fn refusal_of(refused: PendingRefusal) -> Refusal
    ensures { result ≡ refusal.Module (of_module.Pending refused) }
{
    Refusal::Module(ModuleRefusal::Pending(refused))
}

/// The name at a place.
fn name_at<'a>(names: &[&'a str], place: usize) -> &'a str
    requires { place < length names.now }
    ensures { slice_get names.now place ≡ Some result }
{
    names[place]
}

/// Offers the input of this name.
fn offer_name(pending: &mut Pending<'_>, name: &str) -> Result<(), PendingRefusal>
    ensures { NameAnswer pending.old name.now result pending.new }
{
    match Identifier::from_text(name) {
        Some(name) => pending.offer(&name),
        None => Err(PendingRefusal::UnknownSignal),
    }
}

/// The inputs of these names, where an instant of the module may take them.
fn inputs_of(loaded: &Module, names: &[&str]) -> Result<u64, PendingRefusal>
    ensures { MatchResult result (MayTake loaded.now (map (λ t. t.now) names.now))
        (λ refused. AreOffered (inputs_of_module loaded.now 0) (map (λ t. t.now) names.now)
        (Err refused)) }
{
    let mut pending = Pending::new(loaded.kernel.interface(), &loaded.relations);
    for place in 0..names.len() {
        offer_name(&mut pending, name_at(names, place))?;
    }
    pending.ready()?;
    Ok(pending.inputs())
}

/// The last of the states.
fn last_of(states: &[State]) -> State
    requires { 0 < length states.now }
    ensures stands { StandsAt states.now result }
    ensures allowed { Contains states.now result }
{
    states[states.len() - 1]
}

/// The instant of a module in a state with these inputs, and the line that tells it.
fn look_inside(
    alloc: Global,
    inside: &mut InstantReader,
    loaded: &Module,
    state: &State,
    signals: u64,
) -> Result<(Instant, Vec<u8>), AllocError>
    requires is_for { IsFor inside.old loaded.now.kernel }
    requires state { IsState loaded.now.kernel.root state.now }
    ensures is_for { IsFor inside.new loaded.now.kernel }
    ensures told { IfOk result (λ told. IsInstantAt loaded.now state.now signals told.0
        told.1.items) }
{
    let inputs = Inputs { signals };
    let instant = inside.look(alloc, &loaded.kernel, state, &inputs)?;
    let ties = ties_after(alloc, inside, &loaded.kernel, &instant)?;
    let interface = loaded.kernel.interface();
    let line = instant_line(alloc, interface, &instant, ties.as_slice())?;
    Ok((instant, line))
}

/// The states after an instant.
fn advance(states: &mut Vec<State>, instant: &Instant) -> Result<(), AllocError>
    ensures done { IfOk result (λ _. states.new.items ≡ states_after states.old.items
        instant.now) }
    ensures kept { IfErr result (λ _. states.new.items ≡ states.old.items) }
{
    match instant {
        Instant::Reaction { outcome, .. } => {
            states.push(outcome.next)?;
            Ok(())
        }
        Instant::Stuck { .. } => Ok(()),
    }
}

impl SteppedModule {
    /// A module at its start.
    pub fn begin(alloc: Global, loaded: Module) -> Result<SteppedModule, AllocError>
        ensures { IfOk result (λ begun. begun ≡ at_start loaded) }
    {
        let inside = InstantReader::new(alloc, &loaded.kernel)?;
        let states = vec![in alloc; State::Fresh]?;
        Ok(SteppedModule {
            loaded,
            inside,
            states,
        })
    }

    /// The module.
    pub fn module(&self) -> &Module
        ensures { result.now ≡ self.now.loaded }
    {
        &self.loaded
    }

    /// Its next instant from inside, with these inputs, and the line that tells it.
    fn look(&mut self, alloc: Global, signals: u64) -> Result<(Instant, Vec<u8>), AllocError>
        ensures told { IfOk result (λ told. IsInstantOf self.old signals told.0 told.1.items) }
        ensures kept { self.new ≡ self.old }
    {
        let state = last_of(self.states.as_slice());
        look_inside(alloc, &mut self.inside, &self.loaded, &state, signals)
    }

    /// Makes the next instant, with the inputs of these names.
    pub fn make(&mut self, alloc: Global, names: &[&str]) -> Result<LabReply, AllocError>
        ensures done { IfOk result (λ told. Makes self.old (map (λ t. t.now) names.now) told
            self.new) }
        ensures kept { IfErr result (λ _. self.new ≡ self.old) }
    {
        let signals = match inputs_of(&self.loaded, names) {
            Ok(signals) => signals,
            Err(refused) => return Ok(LabReply::Refused(refusal_of(refused))),
        };
        let (instant, line) = self.look(alloc, signals)?;
        advance(&mut self.states, &instant)?;
        Ok(LabReply::Line(line))
    }

    /// Tells the next instant, with the inputs of these names, and stays where it stands.
    pub fn try_instant(&mut self, alloc: Global, names: &[&str]) -> Result<LabReply, AllocError>
        ensures done { IfOk result (λ told. Tries self.old (map (λ t. t.now) names.now) told
            self.new) }
        ensures kept { IfErr result (λ _. self.new ≡ self.old) }
    {
        let signals = match inputs_of(&self.loaded, names) {
            Ok(signals) => signals,
            Err(refused) => return Ok(LabReply::Refused(refusal_of(refused))),
        };
        let (_, line) = self.look(alloc, signals)?;
        Ok(LabReply::Line(line))
    }

    /// Goes back to where it stood after so many instants.
    pub fn go_back(&mut self, alloc: Global, to: u64) -> Result<LabReply, AllocError>
        ensures done { IfOk result (λ told. GoesBack self.old to told self.new) }
        ensures kept { IfErr result (λ _. self.new ≡ self.old) }
    {
        if to >= self.states.len() as u64 {
            return Ok(LabReply::Refused(Refusal::Module(ModuleRefusal::NoInstant)));
        }
        let to = to as usize;
        let line = back_line(alloc, &self.states[to])?;
        self.states.truncate(to + 1);
        Ok(LabReply::Line(line))
    }
}
