//! What was found, as JSON.

ghost use Rattle.std.specs.Prelude.{◌≡◌, IfOk, map};
ghost use Rattle.serde_json.specs.Data.{array, object};
ghost use Rattle.serde_json.specs.View.{items_of, view};
ghost use Rattle.lab_lines.specs.FoundJson.{names_json, answer_members, instant_json, verdict_json};
ghost use Rattle.lab_lines.specs.FoundJson.{instant_of_both_json};

use est_cover::answered::AnsweredInputs;
use est_explore::one_module::Answer;
use est_explore::two_modules::AnswerPair;
use est_explore::verdict::Verdict;
use est_kernel::interface::Interface;
use est_kernel::mask;
use serde_json::{Value, json};
use std::alloc::{AllocError, Global};

/// The names of the signals, in the order of declaration.
pub fn names_json(alloc: Global, interface: &Interface, signals: u64) -> Result<Value, AllocError>
    ensures { IfOk result (λ v. view v ≡ names_json interface.now signals) }
{
    let declarations = interface.declarations();
    let mut names = Vec::new(alloc);
    for place in 0..declarations.len() {
        if mask::has(signals, place as u8) {
            let name = Value::try_from_str(alloc, declarations[place].name.as_str())?;
            names.push(name)?;
        }
    }
    Ok(Value::from(names))
}

/// What a module answered.
fn answer_json(alloc: Global, interface: &Interface, answer: Answer) -> Result<Value, AllocError>
    ensures { IfOk result (λ v. view v ≡ object (answer_members interface.now answer)) }
{
    match answer {
        Answer::Reaction { outputs } => {
            json!(in alloc; {"outputs": names_json(alloc, interface, outputs)?})
        }
        Answer::Stuck { undecided } => {
            json!(in alloc; {"undecided": names_json(alloc, interface, undecided)?})
        }
    }
}

/// An instant of a module.
fn instant_json(
    alloc: Global,
    interface: &Interface,
    asked: &AnsweredInputs<Answer>,
) -> Result<Value, AllocError>
    ensures { IfOk result (λ v. view v ≡ instant_json interface.now asked.now) }
{
    let inputs = names_json(alloc, interface, asked.inputs)?;
    match asked.answer {
        Answer::Reaction { outputs } => json!(in alloc; {
            "inputs": inputs,
            "outputs": names_json(alloc, interface, outputs)?
        }),
        Answer::Stuck { undecided } => json!(in alloc; {
            "inputs": inputs,
            "undecided": names_json(alloc, interface, undecided)?
        }),
    }
}

/// The instants of a module.
fn word_json(
    alloc: Global,
    interface: &Interface,
    word: &[AnsweredInputs<Answer>],
) -> Result<Value, AllocError>
    ensures { IfOk result (λ v.
        view v ≡ array (items_of (map (instant_json interface.now) word.now))) }
{
    let mut instants = Vec::new(alloc);
    for asked in word {
        instants.push(instant_json(alloc, interface, asked)?)?;
    }
    Ok(Value::from(instants))
}

/// What is answered to a claim.
pub fn verdict_json(
    alloc: Global,
    interface: &Interface,
    verdict: &Verdict,
) -> Result<Value, AllocError>
    ensures { IfOk result (λ v. view v ≡ verdict_json interface.now verdict.now) }
{
    match verdict {
        Verdict::Holds => json!(in alloc; {"verdict": "holds"}),
        Verdict::TooMany => json!(in alloc; {"verdict": "toomany"}),
        Verdict::Fails { word: instants } => {
            json!(in alloc; {"verdict": "fails", "word": word_json(alloc, interface, instants)?})
        }
    }
}

/// An instant of two modules.
fn instant_of_both_json(
    alloc: Global,
    interface: &Interface,
    asked: &AnsweredInputs<AnswerPair>,
) -> Result<Value, AllocError>
    ensures { IfOk result (λ v. view v ≡ instant_of_both_json interface.now asked.now) }
{
    let inputs = names_json(alloc, interface, asked.inputs)?;
    let first = answer_json(alloc, interface, asked.answer.first)?;
    let second = answer_json(alloc, interface, asked.answer.second)?;
    json!(in alloc; {"first": first, "inputs": inputs, "second": second})
}

/// The instants of two modules.
pub fn word_of_both_json(
    alloc: Global,
    interface: &Interface,
    word: &[AnsweredInputs<AnswerPair>],
) -> Result<Value, AllocError>
    ensures { IfOk result (λ v.
        view v ≡ array (items_of (map (instant_of_both_json interface.now) word.now))) }
{
    let mut instants = Vec::new(alloc);
    for asked in word {
        instants.push(instant_of_both_json(alloc, interface, asked)?)?;
    }
    Ok(Value::from(instants))
}
