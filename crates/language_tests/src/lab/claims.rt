//! Claims of modules, and what is answered.

ghost use Rattle.std.specs.Prelude.{◌≡◌};

use crate::lab::lines::expect_member;
use crate::lab::modules::{A, B, O, both, is_absent, late, paradox};
use crate::literature::loads::engine_of;
use est_cover::answered::AnsweredInputs;
use est_cover::lawful_inputs::LawfulInputs;
use est_explore::claim::Claim;
use est_explore::judge::{explore, judge};
use est_explore::one_module::{Answer, OneModule};
use est_explore::two_modules::{EnginePair, TwoModules};
use est_explore::verdict::Verdict;
use est_kernel::kernel::Kernel;
use est_micro::micro::Micro;
use est_relations::relations::{Members, Relation, Relations};
use est_rounds::part_engine::PartEngine;
use est_rounds::rounds::Rounds;
use lab_lines::comparing::{are_same, compare_modules};
use serde_json::Value;
use state_search::search::Limits;
use std::alloc::Global;
use std::marker::PhantomData;
use std::process::Abort;

/// Every signal may be offered.
pub const ALL: u64 = u64::MAX;

/// How the instants of a counterexample are told: the inputs of each, and what is emitted or `?`
/// and
/// what is undecided, as masks.
fn word_told(rt: &impl Abort, alloc: Global, word: &[AnsweredInputs<Answer>]) -> String {
    let mut told = String::new(alloc);
    for asked in word {
        let inputs = asked.inputs;
        let instant = match asked.answer {
            Answer::Reaction { outputs } => format!(in alloc; " {inputs}>{outputs}"),
            Answer::Stuck { undecided } => format!(in alloc; " {inputs}>?{undecided}"),
        };
        let instant = instant.expect(rt, "room");
        told.push_str(instant.as_str()).expect(rt, "room");
    }
    told
}

/// How a verdict is told.
fn told(rt: &impl Abort, alloc: Global, verdict: &Verdict) -> String {
    match verdict {
        Verdict::Holds => String::from_str(alloc, " holds").expect(rt, "room"),
        Verdict::Fails { word } => word_told(rt, alloc, word),
        Verdict::TooMany => String::from_str(alloc, " too many").expect(rt, "room"),
    }
}

/// What is answered to a claim of a kernel, by an engine for it.
fn answer_by<E: PartEngine>(
    rt: &impl Abort,
    alloc: Global,
    engine: &mut E,
    kernel: &Kernel,
    relations: &Relations,
    allowed: u64,
    claim: &Claim<'_>,
    most: usize,
) -> String
    requires { E.is_for engine.old kernel.now }
{
    let reactive = OneModule {
        kernel,
        engine: PhantomData,
    };
    let subject = LawfulInputs {
        reactive: &reactive,
        relations,
        allowed,
        watched: claim.signals(),
    };
    let limits = Limits {
        states: most,
        steps: 99,
    };
    let found = explore(alloc, &subject, engine, limits).expect(rt, "room");
    let verdict = judge(alloc, &subject, &found, claim).expect(rt, "room");
    told(rt, alloc, &verdict)
}

/// What is answered to a claim of a kernel. Both engines tell the same.
pub fn answer_told(
    rt: &impl Abort,
    alloc: Global,
    kernel: &Kernel,
    relations: &Relations,
    allowed: u64,
    claim: &Claim<'_>,
    most: usize,
) -> String {
    let mut plain = Rounds::new();
    let wanted = answer_by(
        rt, alloc, &mut plain, kernel, relations, allowed, claim, most,
    );
    let mut engine = engine_of(rt, alloc, kernel);
    let told = answer_by(
        rt,
        alloc,
        &mut engine,
        kernel,
        relations,
        allowed,
        claim,
        most,
    );
    assert_eq!(rt; told.as_str(), wanted.as_str());
    told
}

/// Fails where something else is answered to a claim of a kernel.
fn expect_answer(
    rt: &impl Abort,
    alloc: Global,
    kernel: &Kernel,
    relations: &Relations,
    allowed: u64,
    claim: &Claim<'_>,
    most: usize,
    wanted: &str,
) {
    let told = answer_told(rt, alloc, kernel, relations, allowed, claim, most);
    assert_eq!(rt; told.as_str(), wanted);
}

/// `relation A # B;`
fn exclusion(rt: &impl Abort, alloc: Global) -> Relations {
    let mut members = Members::new(alloc);
    members.push(A).expect(rt, "room");
    members.push(B).expect(rt, "room");
    let mut relations = Relations::new(alloc);
    relations
        .push(Relation::Exclusion(members))
        .expect(rt, "room");
    relations
}

/// `relation A => B;`
fn implication(rt: &impl Abort, alloc: Global) -> Relations {
    let mut relations = Relations::new(alloc);
    relations
        .push(Relation::Implication(A, B))
        .expect(rt, "room");
    relations
}

/// Two inputs together bring O about, unless they exclude each other or nobody may offer one.
#[test]
fn tests_over_all_runs(rt: HostRuntime) {
    let alloc = rt.alloc();
    let kernel = both(&rt, alloc);
    let no_o = is_absent(&rt, alloc, O);
    let claim = Claim::Always(&no_o);
    let free = Relations::new(alloc);
    expect_answer(&rt, alloc, &kernel, &free, ALL, &claim, 9, " 3>4");
    expect_answer(&rt, alloc, &kernel, &free, 6, &claim, 9, " holds");
    let excluded = exclusion(&rt, alloc);
    expect_answer(&rt, alloc, &kernel, &excluded, ALL, &claim, 9, " holds");
}

/// A test sees what is offered, emitted or not; and what breaks an implication is not offered.
#[test]
fn offers(rt: HostRuntime) {
    let alloc = rt.alloc();
    let kernel = both(&rt, alloc);
    let no_a = is_absent(&rt, alloc, A);
    let claim = Claim::Always(&no_a);
    let free = Relations::new(alloc);
    expect_answer(&rt, alloc, &kernel, &free, ALL, &claim, 9, " 1>0");
    let implied = implication(&rt, alloc);
    expect_answer(&rt, alloc, &kernel, &implied, ALL, &claim, 9, " 3>4");
}

/// A module gets Stuck in its second instant, and only with an input that may be offered.
#[test]
fn stuck(rt: HostRuntime) {
    let alloc = rt.alloc();
    let kernel = paradox(&rt, alloc);
    let free = Relations::new(alloc);
    let claim = Claim::NeverStuck;
    expect_answer(&rt, alloc, &kernel, &free, 1, &claim, 9, " 0>0 1>?4");
    expect_answer(&rt, alloc, &kernel, &free, 2, &claim, 9, " holds");
}

/// A claim sees what is offered, also where the module does not look at it.
#[test]
fn what_no_module_looks_at(rt: HostRuntime) {
    let alloc = rt.alloc();
    let kernel = late(&rt, alloc);
    let free = Relations::new(alloc);
    let no_b = is_absent(&rt, alloc, B);
    let claim = Claim::Always(&no_b);
    expect_answer(&rt, alloc, &kernel, &free, ALL, &claim, 9, " 2>0");
    expect_answer(&rt, alloc, &kernel, &free, 1, &claim, 9, " holds");
}

/// A search that may not look far enough says so.
#[test]
fn limits(rt: HostRuntime) {
    let alloc = rt.alloc();
    let kernel = late(&rt, alloc);
    let free = Relations::new(alloc);
    let no_o = is_absent(&rt, alloc, O);
    let claim = Claim::Always(&no_o);
    expect_answer(&rt, alloc, &kernel, &free, 0, &claim, 9, " 0>0 0>0 0>4");
    expect_answer(&rt, alloc, &kernel, &free, 0, &claim, 2, " too many");
}

/// What is told of two kernels of one interface.
fn comparison_json(rt: &impl Abort, alloc: Global, first: &Kernel, second: &Kernel) -> Value
    requires { second.now.interface ≡ first.now.interface }
{
    let free = Relations::new(alloc);
    let two = TwoModules {
        first: OneModule {
            kernel: first,
            engine: PhantomData,
        },
        second: OneModule {
            kernel: second,
            engine: PhantomData,
        },
    };
    let subject = LawfulInputs {
        reactive: &two,
        relations: &free,
        allowed: ALL,
        watched: 0,
    };
    let mut engines = EnginePair {
        first: engine_of(rt, alloc, first),
        second: engine_of(rt, alloc, second),
    };
    let limits = Limits {
        states: 9,
        steps: 99,
    };
    compare_modules(alloc, &subject, &mut engines, limits).expect(rt, "room")
}

/// A module does the same as itself, and not as one that is Stuck where it reacts.
#[test]
fn twins(rt: HostRuntime) {
    let alloc = rt.alloc();
    let kernel = paradox(&rt, alloc);
    let told = comparison_json(&rt, alloc, &kernel, &kernel);
    expect_member(&rt, alloc, &told, "verdict", "\"same\"");
    let other = late(&rt, alloc);
    assert!(rt; are_same(other.interface(), kernel.interface()));
    let told = comparison_json(&rt, alloc, &kernel, &other);
    let wanted = "[{\"first\":{\"outputs\":[]},\"inputs\":[],\"second\":{\"outputs\":[]}},\
        {\"first\":{\"undecided\":[\"O\"]},\"inputs\":[\"A\"],\"second\":{\"outputs\":[]}}]";
    expect_member(&rt, alloc, &told, "word", wanted);
}
