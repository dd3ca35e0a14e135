//! What a lab does, and the status of what it tells.
ghost use Rattle.std.specs.Prelude.{◌≡◌, IfErr, IfOk, map};
ghost use Rattle.lab_run.specs.Answers.{Obeys};
ghost use Rattle.lab_run.specs.Statuses.{status_of};
ghost use Rattle.lab_run.specs.Walking.{GoesBack, Tries};

use lab_lines::request::Request;
use lab_run::lab::{Lab, LabReply};
use lab_run::status;
use lab_run::stepped_module::SteppedModule;
use std::alloc::{AllocError, Global};

/// Does what is asked of a lab.
///
/// # Errors
///
/// `AllocError` where memory is refused.
pub fn obey(lab: &mut Lab, alloc: Global, request: &Request<'_>) -> Result<LabReply, AllocError>
    ensures done { IfOk result (λ told. Obeys lab.old.stepped request.now told lab.new.stepped) }
    ensures kept { IfErr result (λ _. lab.new ≡ lab.old) }
{
    lab.obey(alloc, request)
}

/// Tells the next instant of a walk, with the inputs of these names, which stays where it stands.
///
/// # Errors
///
/// `AllocError` where memory is refused.
pub fn try_instant(
    stepped: &mut SteppedModule,
    alloc: Global,
    names: &[&str],
) -> Result<LabReply, AllocError>
    ensures done { IfOk result (λ told. Tries stepped.old (map (λ t. t.now) names.now) told
        stepped.new) }
    ensures kept { IfErr result (λ _. stepped.new ≡ stepped.old) }
{
    stepped.try_instant(alloc, names)
}

/// Goes back with a walk to where it stood after so many instants.
///
/// # Errors
///
/// `AllocError` where memory is refused.
pub fn go_back(stepped: &mut SteppedModule, alloc: Global, to: u64) -> Result<LabReply, AllocError>
    ensures done { IfOk result (λ told. GoesBack stepped.old to told stepped.new) }
    ensures kept { IfErr result (λ _. stepped.new ≡ stepped.old) }
{
    stepped.go_back(alloc, to)
}

/// The status of what is told: 0 where each claim holds, 1 where one fails, 3 where it is not
/// known, and 2 where something can't be read.
pub fn status_of(told: &LabReply) -> u8
    ensures { result ≡ status_of told.now }
{
    status::status_of(told)
}
