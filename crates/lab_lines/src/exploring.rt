//! Claims are judged over all runs of a module.

ghost use Rattle.std.specs.Prelude.{◌≡◌, IfOk, map};
ghost use Rattle.std.specs.List.{All};
ghost use Rattle.serde_json.specs.View.{view};
ghost use Rattle.state_search.specs.Table.{HasEnded};
ghost use Rattle.est_kernel.specs.Bits.{bits};
ghost use Rattle.est_explore.specs.Claims.{IsToldBy};
ghost use Rattle.est_explore.specs.Explored.{IsExplored};
ghost use Rattle.est_explore.specs.Views.{module_of};
ghost use Rattle.lab_lines.specs.Tests.{test_of};
ghost use Rattle.lab_lines.specs.Exploring.{AreTold, IsExploration};
ghost use Rattle.lab_lines.specs.FoundJson.{exploration_json};

use crate::asked_test::AskedTest;
use crate::found_json::verdict_json;
use est_cover::answered::AnsweredInputs;
use est_cover::lawful_inputs::LawfulInputs;
use est_explore::claim::Claim;
use est_explore::judge::{explore, judge};
use est_explore::one_module::{Answer, OneModule, Position};
use est_explore::reads::signals_of;
use est_kernel::mask;
use est_rounds::part_engine::PartEngine;
use serde_json::{Value, json};
use state_search::found::Found;
use state_search::search::Limits;
use std::alloc::{AllocError, Global};

/// The signals that tell the tests.
fn watched_by(tests: &[AskedTest]) -> u64
    ensures { All (λ t. IsToldBy (test_of t) (bits result)) tests.now }
{
    let mut signals = 0;
    for test in tests {
        signals = mask::union(signals, signals_of(test.test()));
    }
    signals
}

/// The verdicts on tests.
fn verdicts_on<E: PartEngine>(
    alloc: Global,
    subject: &LawfulInputs<'_, OneModule<'_, E>>,
    found: &Found<Position, AnsweredInputs<Answer>>,
    tests: &[AskedTest],
    limits: Limits,
) -> Result<Vec<Value>, AllocError>
    requires explored { IsExplored (module_of subject.now.reactive.now.kernel.now
        subject.now.relations.now subject.now.allowed) (bits subject.now.watched) found.now }
    requires watched { All (λ t. IsToldBy (test_of t) (bits subject.now.watched)) tests.now }
    requires ended { HasEnded limits.states limits.steps found.now.nodes.items found.now.rows.items
        found.now.done }
    ensures { IfOk result (λ told. AreTold (module_of subject.now.reactive.now.kernel.now
        subject.now.relations.now subject.now.allowed) limits.states limits.steps
        (map test_of tests.now) (map view told.items)) }
{
    let mut verdicts = Vec::new(alloc);
    for test in tests {
        let claim = Claim::Always(test.test());
        let given = judge(alloc, subject, found, &claim)?;
        let told = verdict_json(alloc, subject.reactive.kernel.interface(), &given)?;
        verdicts.push(told)?;
    }
    Ok(verdicts)
}

/// What is found of a module.
fn exploration_json(
    alloc: Global,
    reactions: usize,
    states: usize,
    stuck: Value,
    verdicts: Vec<Value>,
) -> Result<Value, AllocError>
    ensures { IfOk result (λ v. view v
        ≡ exploration_json reactions states (view stuck) (map view verdicts.items)) }
{
    json!(in alloc; {
        "ok": "explore",
        "reactions": reactions,
        "states": states,
        "stuck": stuck,
        "verdicts": verdicts
    })
}

/// The verdicts on a module: whether it is ever Stuck, and whether the tests always hold.
pub fn judge_module<E: PartEngine>(
    alloc: Global,
    subject: &LawfulInputs<'_, OneModule<'_, E>>,
    engine: &mut E,
    tests: &[AskedTest],
    limits: Limits,
) -> Result<Value, AllocError>
    requires engine { E.is_for engine.old subject.now.reactive.now.kernel.now }
    ensures { IfOk result (λ v. IsExploration (module_of subject.now.reactive.now.kernel.now
        subject.now.relations.now subject.now.allowed) (map test_of tests.now) limits.states
        limits.steps (view v)) }
{
    let watching = LawfulInputs {
        reactive: subject.reactive,
        relations: subject.relations,
        allowed: subject.allowed,
        watched: watched_by(tests),
    };
    let found = explore(alloc, &watching, engine, limits)?;
    let given = judge(alloc, &watching, &found, &Claim::NeverStuck)?;
    let stuck = verdict_json(alloc, subject.reactive.kernel.interface(), &given)?;
    let verdicts = verdicts_on(alloc, &watching, &found, tests, limits)?;
    let reactions = found.rows.len();
    let states = found.nodes.len();
    let told = exploration_json(alloc, reactions, states, stuck, verdicts)?;
    Ok(told)
}
