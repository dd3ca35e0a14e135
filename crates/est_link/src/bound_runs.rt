//! A module's body where it is run.
ghost use Rattle.std.specs.Prelude.{◌≡◌, IfOk};
ghost use Rattle.est_link.specs.Inner.Binds.{binding_of};
ghost use Rattle.est_link.specs.Inner.OpenBodies.{closed_of};
ghost use Rattle.est_link.specs.Inner.Tables.{module_body_of};
ghost use Rattle.est_link.specs.Linking.{body_in_run};

use crate::bindings::Binding;
use crate::module_bodies::ModuleBody;
use crate::open_body::OpenBody;
use crate::run_meanings::inside;
use std::alloc::AllocError;

/// The body of a module where it is run: its interface signals stand for those that the `run`
/// binds, inside the local signals around the `run`.
#[tactic(auto, using(crate::proofs::Meanings::meant_in))]
pub fn bind_body(binding: &Binding<'_, '_, '_>, flat: &ModuleBody) -> Result<OpenBody, AllocError>
    ensures { IfOk result (λ b. closed_of b ≡ body_in_run (binding_of binding.now)
        binding.now.locals (module_body_of flat.now)) }
{
    let meanings = inside(binding.alloc, binding, &flat.meanings)?;
    Ok(OpenBody::Run(flat.body.clone()?, meanings))
}
