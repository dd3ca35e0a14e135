//! What C asks of a machine, each question by its number.

ghost use Rattle.std.specs.Prelude.{◌≡◌};
ghost use Rattle.est_host.specs.Answers.{named, question_of, status_of, told_of};

use est_machine::refusal::MachineRefusal;

/// The machine was ended, or there is no such question.
pub const NOTHING: u64 = u64::MAX;

/// A question that a program in C asks of a machine.
#[derive(Clone, Copy, PartialEq, Eq)]
pub enum HostQuestion {
    /// React to the inputs of this mask.
    React,
    /// What the last reaction gave.
    Given,
    /// Go back to before the first instant.
    Reset,
    /// The signals that may be offered, as a mask.
    Inputs,
    /// The signals that may be emitted, as a mask.
    Outputs,
    /// A letter of a name: 64 for each place of the interface, and the letter's place.
    Letter,
    /// Give back all memory that the machine has.
    End,
    /// The word of this place, of those that keep where it stands.
    Saved,
    /// Go where the words that were put say.
    Restore,
    /// Put this word at a place.
    Put(u64),
}

/// The question of this number.
pub fn question_of(number: u64) -> Option<HostQuestion>
    ensures { result ≡ question_of number }
{
    if number >= 64 {
        return Some(HostQuestion::Put(number - 64));
    }
    named(number)
}

/// The question of a number below 64.
fn named(number: u64) -> Option<HostQuestion>
    ensures { result ≡ named number }
{
    match number {
        0 => Some(HostQuestion::React),
        1 => Some(HostQuestion::Given),
        2 => Some(HostQuestion::Reset),
        3 => Some(HostQuestion::Inputs),
        4 => Some(HostQuestion::Outputs),
        5 => Some(HostQuestion::Letter),
        6 => Some(HostQuestion::End),
        7 => Some(HostQuestion::Saved),
        8 => Some(HostQuestion::Restore),
        _ => None,
    }
}

/// The status of a refusal.
pub fn status_of(refusal: MachineRefusal) -> u64
    ensures { result ≡ status_of refusal }
{
    match refusal {
        MachineRefusal::Stuck(_) => 1,
        MachineRefusal::Broken(_) => 2,
        MachineRefusal::NotInputs(_) => 3,
    }
}

/// What a refusal tells: undecided signals, the number of a relation, or signals that are no
/// inputs.
pub fn told_of(refusal: MachineRefusal) -> u64
    ensures { result ≡ told_of refusal }
{
    match refusal {
        MachineRefusal::Stuck(undecided) => undecided,
        MachineRefusal::Broken(relation) => relation as u64,
        MachineRefusal::NotInputs(others) => others,
    }
}
