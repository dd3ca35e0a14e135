//! Claims as texts, and the verdicts on them.
ghost use Rattle.std.specs.Prelude.{IfErr, IfOk, map};
ghost use Rattle.serde_json.specs.View.{view};
ghost use Rattle.lab_lines.specs.Tests.{test_of};
ghost use Rattle.lab_claims.specs.Claims.{IsClaimText};
ghost use Rattle.lab_claims.specs.Refused.{IsClaimFault};
ghost use Rattle.lab_run.specs.Answers.{TellsAmong};

use est_kernel::interface::Interface;
use lab_claims::claims;
use lab_lines::asked_test::AskedTest;
use lab_run::lab;
use reactor_core::kernel_module::Module;
use reactor_core::refusal::ReactorRefusal;
use serde_json::Value;
use state_search::search::Limits;
use std::alloc::{AllocError, Global};

/// The test that has to hold in each instant by a claim.
///
/// # Errors
///
/// Where the text is no claim; or where memory is refused.
pub fn read_claim(
    alloc: Global,
    interface: &Interface,
    claim: &str,
) -> Result<AskedTest, ReactorRefusal>
    ensures read { IfOk result (λ a. IsClaimText interface.now claim.now (test_of a)) }
    ensures fault { IfErr result (IsClaimFault interface.now claim.now) }
{
    claims::read_claim(alloc, interface, claim)
}

/// Judges claims of a module that is offered these inputs alone.
///
/// # Errors
///
/// `AllocError` where memory is refused.
pub fn explore_among(
    alloc: Global,
    loaded: &Module,
    claims: &[&str],
    allowed: u64,
    limits: Limits,
) -> Result<Value, AllocError>
    ensures { IfOk result (λ v. TellsAmong loaded.now (map (λ t. t.now) claims.now) allowed
        limits.states limits.steps (view v)) }
{
    lab::explore_among(alloc, loaded, claims, allowed, limits)
}
