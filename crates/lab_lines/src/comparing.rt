//! Two modules are compared over all their runs.

ghost use Rattle.std.specs.Prelude.{◌≡◌, ◌↔◌, IsTrue, IfOk};
ghost use Rattle.serde_json.specs.View.{view};
ghost use Rattle.est_explore.specs.Inner.Pairs.{AreFor};
ghost use Rattle.est_explore.specs.Views.{module_of};
ghost use Rattle.lab_lines.specs.Comparing.{IsComparison};
ghost use Rattle.lab_lines.specs.FoundJson.{comparison_json};

use crate::found_json::word_of_both_json;
use est_cover::lawful_inputs::LawfulInputs;
use est_explore::comparison::{Comparison, compare, explore_both};
use est_explore::two_modules::{EnginePair, TwoModules};
use est_kernel::interface::{Declaration, Interface};
use est_rounds::part_engine::PartEngine;
use serde_json::{Value, json};
use state_search::search::Limits;
use std::alloc::{AllocError, Global};

/// Whether the two are one declaration.
fn is_same(one: &Declaration, other: &Declaration) -> bool
    ensures { IsTrue result ↔ (one.now ≡ other.now) }
{
    one.name.is(&other.name) && one.kind == other.kind
}

/// Whether the two declare the same signals in the same order.
pub fn are_same(one: &Interface, other: &Interface) -> bool
    ensures { IsTrue result ↔ (one.now ≡ other.now) }
{
    let one = one.declarations();
    let other = other.declarations();
    if one.len() != other.len() {
        return false;
    }
    for at in 0..one.len() {
        if !is_same(&one[at], &other[at]) {
            return false;
        }
    }
    true
}

/// What a comparison is answered, with the numbers of reactions and of pairs of states.
fn comparison_json(
    alloc: Global,
    interface: &Interface,
    comparison: &Comparison,
    reactions: usize,
    states: usize,
) -> Result<Value, AllocError>
    ensures { IfOk result (λ v.
        view v ≡ comparison_json interface.now reactions states comparison.now) }
{
    match comparison {
        Comparison::Same => json!(in alloc; {
            "ok": "same", "reactions": reactions, "states": states, "verdict": "same"
        }),
        Comparison::TooMany => json!(in alloc; {
            "ok": "same", "reactions": reactions, "states": states, "verdict": "toomany"
        }),
        Comparison::Differ { word } => {
            let word = word_of_both_json(alloc, interface, word.as_slice())?;
            json!(in alloc; {
                "ok": "same",
                "reactions": reactions,
                "states": states,
                "verdict": "differ",
                "word": word
            })
        }
    }
}

/// Whether two modules do the same.
pub fn compare_modules<E: PartEngine, F: PartEngine>(
    alloc: Global,
    subject: &LawfulInputs<'_, TwoModules<'_, E, F>>,
    engines: &mut EnginePair<E, F>,
    limits: Limits,
) -> Result<Value, AllocError>
    requires engines { AreFor (E.is_for engines.old.first subject.now.reactive.now.first.kernel.now)
        (F.is_for engines.old.second subject.now.reactive.now.second.kernel.now)
        subject.now.reactive.now.first.kernel.now subject.now.reactive.now.second.kernel.now }
    requires interface { subject.now.reactive.now.second.kernel.now.interface
        ≡ subject.now.reactive.now.first.kernel.now.interface }
    ensures { IfOk result (λ v. IsComparison
        (module_of subject.now.reactive.now.first.kernel.now subject.now.relations.now
        subject.now.allowed)
        (module_of subject.now.reactive.now.second.kernel.now subject.now.relations.now
        subject.now.allowed) limits.states limits.steps (view v)) }
{
    let found = explore_both(alloc, subject, engines, limits)?;
    let comparison = compare(alloc, subject, &found)?;
    let reactions = found.rows.len();
    let states = found.nodes.len();
    let both = subject.reactive;
    let interface = both.first.kernel.interface();
    let told = comparison_json(alloc, interface, &comparison, reactions, states)?;
    Ok(told)
}
