//! How a machine answers what C asks. Nothing here takes memory.

ghost use Rattle.std.specs.Prelude.{◌≡◌, ◌≢◌, ◌<◌, ◌≤◌, ◌/◌, ◌%◌, slice_get};
ghost use Rattle.est_host.specs.Answers.{Answered, PutsAs, ReactsAs, RestoresAs, Tells};
ghost use Rattle.est_host.specs.Answers.{letter_of};
ghost use Rattle.est_machine.specs.Saved.{IsSavedWord};

use crate::question::{HostQuestion, NOTHING, question_of, status_of, told_of};
use crate::running::HostedMachine;
use est_kernel::interface::Interface;
use est_machine::machine::Machine;

/// One instant: 0 and the outputs, or the status of the refusal and what it tells.
fn react(machine: &mut Machine, given: &mut u64, inputs: u64) -> u64
    ensures { ReactsAs machine.old inputs result given.new machine.new }
{
    match machine.react(inputs) {
        Ok(outputs) => {
            *given = outputs;
            0
        }
        Err(refusal) => {
            *given = told_of(refusal);
            status_of(refusal)
        }
    }
}

/// A letter of a name; 0 after its end, and where there is no such signal.
fn letter_of(interface: &Interface, at: u64) -> u64
    ensures { result ≡ letter_of (slice_get interface.now (at / 64)) (at % 64) }
{
    let Some(declaration) = interface.declarations().get((at / 64) as usize) else {
        return 0;
    };
    match declaration.name.as_bytes().get((at % 64) as usize) {
        Some(letter) => *letter as u64,
        None => 0,
    }
}

/// The word of this place, of those that keep where a machine stands.
fn saved(machine: &Machine, place: u64) -> u64
    ensures word { place < 65 → IsSavedWord machine.now.2 machine.now.3 place result }
    ensures beyond { 65 ≤ place → result ≡ NOTHING }
{
    if place >= 65 {
        return NOTHING;
    }
    machine.saved(place as usize)
}

/// Goes where the words say: 0, or 1 where they were not saved of this machine.
fn restore(machine: &mut Machine, words: &[u64; 65]) -> u64
    ensures { RestoresAs machine.old words.now result machine.new }
{
    if machine.restore(words) { 0 } else { 1 }
}

/// Puts a word at its place, if there is such a place.
fn put(words: &mut [u64; 65], place: u64, word: u64) -> u64
    ensures { PutsAs words.old place word result words.new }
{
    if place >= 65 {
        return NOTHING;
    }
    words[place as usize] = word;
    0
}

/// Answers a question about a machine that goes on.
fn tell(
    machine: &mut Machine,
    given: &mut u64,
    words: &mut [u64; 65],
    question: HostQuestion,
    argument: u64,
) -> u64
    requires { question ≢ HostQuestion.End }
    ensures { Tells question machine.old (given.old, words.old) argument result machine.new
        (given.new, words.new) }
{
    match question {
        HostQuestion::React => react(machine, given, argument),
        HostQuestion::Given => *given,
        HostQuestion::Reset => {
            machine.reset();
            0
        }
        HostQuestion::Inputs => machine.interface().offerable(),
        HostQuestion::Outputs => machine.interface().emittable(),
        HostQuestion::Letter => letter_of(machine.interface(), argument),
        HostQuestion::Saved => saved(machine, argument),
        HostQuestion::Restore => restore(machine, words),
        HostQuestion::Put(place) => put(words, place, argument),
        HostQuestion::End => NOTHING,
    }
}

/// Answers a question.
pub fn answer(running: &mut HostedMachine, question: u64, argument: u64) -> u64
    ensures { Answered running.old question argument result running.new }
{
    let Some(question) = question_of(question) else {
        return NOTHING;
    };
    let Some(machine) = &mut running.machine else {
        return NOTHING;
    };
    if let HostQuestion::End = question {
        running.machine = None;
        return 0;
    }
    tell(
        machine,
        &mut running.given,
        &mut running.words,
        question,
        argument,
    )
}
