//! Names that a request has, and answers as JSON.
ghost use Rattle.std.specs.Prelude.{◌≡◌, IfErr, IfOk, IfSome, map};
ghost use Rattle.serde_json.specs.View.{view};
ghost use Rattle.lab_lines.specs.FoundJson.{verdict_json};
ghost use Rattle.lab_lines.specs.Offers.{AreNamed, FirstNotOfferable};
ghost use Rattle.lab_lines.specs.Requests.{Asks};
ghost use Rattle.lab_lines.specs.Statements.{IsKernelTold};

use est_explore::verdict::Verdict;
use est_kernel::interface::Interface;
use est_kernel::kernel::Kernel;
use est_relations::refusal::PendingRefusal;
use json::Scratch;
use lab_lines::request::Request;
use lab_lines::{found_json, instant_lines, offers, statements};
use serde_json::Value;
use std::alloc::{AllocError, Global};

/// The request of a line of `instant` or `try` whose keys stand in order.
///
/// # Errors
///
/// `AllocError` where memory is refused.
pub fn read_instant<'a>(
    alloc: Global,
    scratch: &'a mut Scratch,
    text: &'a str,
) -> Result<Option<Request<'a>>, AllocError>
    ensures { IfOk result (λ read. IfSome read (Asks text.now)) }
{
    instant_lines::read_instant(alloc, scratch, text)
}

/// The signals of these names as a mask.
///
/// # Errors
///
/// Where one of them is no signal, or may not be offered.
pub fn signals_of_names(interface: &Interface, names: &[&str]) -> Result<u64, PendingRefusal>
    ensures named { IfOk result (AreNamed interface.now (map (λ t. t.now) names.now)) }
    ensures fault { IfErr result (FirstNotOfferable interface.now (map (λ t. t.now) names.now)) }
{
    offers::signals_of_names(interface, names)
}

/// What is answered to a claim.
///
/// # Errors
///
/// `AllocError` where memory is refused.
pub fn verdict_json(
    alloc: Global,
    interface: &Interface,
    verdict: &Verdict,
) -> Result<Value, AllocError>
    ensures { IfOk result (λ v. view v ≡ verdict_json interface.now verdict.now) }
{
    found_json::verdict_json(alloc, interface, verdict)
}

/// The statements of a kernel.
///
/// # Errors
///
/// `AllocError` where memory is refused.
pub fn kernel_json(alloc: Global, kernel: &Kernel) -> Result<Value, AllocError>
    ensures { IfOk result (λ v. IsKernelTold kernel.now (view v)) }
{
    statements::kernel_json(alloc, kernel)
}
