//! The bodies of modules, by the names of the modules.
ghost use Rattle.std.specs.Prelude.{◌≡◌, ℕ, List, Some, None, IfOk, OnOk, option_map};
ghost use Rattle.std.specs.Prelude.{if◌then◌else◌};
ghost use Rattle.std.specs.Str.{bytes_eq};
ghost use Rattle.est_link.specs.Inner.OpenBodies.{closed_of};
ghost use Rattle.est_link.specs.Inner.Tables.{bodies_of, body_named, module_body_of};
ghost use Rattle.est_reduce.specs.Views.{body_of};

use crate::closing::{CloseContext, close};
use crate::open_body::OpenBody;
use crate::signal_meanings::SignalMeanings;
use crate::used_signals::own_meanings;
use est_reduce::body::Body;
use est_text::identifier::Identifier;
use std::alloc::{AllocError, Global};
use std::collections::BTreeMap;
use std::rc::Rc;

/// The body of a module: an open body, and what its signals mean in the module.
#[derive(Drop)]
pub struct ModuleBody {
    /// The open body.
    pub body: Rc<OpenBody>,
    /// What its signals mean.
    pub meanings: SignalMeanings,
}

impl ModuleBody {
    /// The body of the module whose open body this is. Where that is one run alone, it is the body
    /// that is run, with what its signals mean in that run. So in a chain of n modules that each
    /// only run the next, closing takes one step, not n.
    ///
    /// # Errors
    ///
    /// `AllocError` where memory is refused.
    pub fn of(alloc: Global, body: OpenBody) -> Result<ModuleBody, AllocError>
        ensures { IfOk result (λ b. module_body_of b ≡ closed_of body) }
    {
        match body {
            OpenBody::Run(body, meanings) => Ok(ModuleBody { body, meanings }),
            body => {
                let meanings = own_meanings(alloc, &body)?;
                Ok(ModuleBody {
                    body: Rc::new(alloc, body)?,
                    meanings,
                })
            }
        }
    }

    /// The body, its runs replaced.
    ///
    /// # Errors
    ///
    /// `AllocError` where memory is refused.
    fn close(&self, alloc: Global) -> Result<Body, AllocError>
        ensures { IfOk result (λ b. body_of b ≡ module_body_of self.now) }
    {
        close(
            &CloseContext {
                alloc,
                meanings: &self.meanings,
            },
            &self.body,
        )
    }
}

/// The flat bodies of modules, by the names of the modules. A look-up takes as many steps as their
/// count has digits in binary.
#[derive(Drop)]
pub struct ModuleBodies<'a> {
    bodies: BTreeMap<&'a [u8], ModuleBody>,
}

impl<'a> ModuleBodies<'a> {
    /// No module has a body.
    pub fn new(alloc: Global) -> ModuleBodies<'a>
        ensures { (m : List ℕ) → body_named result m ≡ None }
    {
        ModuleBodies {
            bodies: BTreeMap::new(alloc),
        }
    }

    /// The body of the module of a name, if it has one.
    pub fn named(&self, name: &Identifier) -> Option<&ModuleBody>
        ensures { option_map (λ b. b.now) result ≡ body_named self.now name.now }
    {
        self.bodies.get(name.as_bytes())
    }

    /// Says that a module has this body, and no other.
    ///
    /// # Errors
    ///
    /// `AllocError` where memory is refused.
    pub fn add(&mut self, name: &'a Identifier, body: ModuleBody) -> Result<(), AllocError>
        ensures { OnOk result ((m : List ℕ) → body_named self.new m
            ≡ (if bytes_eq name.now m then Some body else body_named self.old m)) }
    {
        self.bodies.insert(name.as_bytes(), body)?;
        Ok(())
    }

    /// The body of the module of a name, its runs replaced, or `nothing` where it has none.
    ///
    /// # Errors
    ///
    /// `AllocError` where memory is refused.
    pub fn close(&self, alloc: Global, name: &Identifier) -> Result<Body, AllocError>
        ensures { IfOk result (λ b. body_of b ≡ bodies_of self.now name.now) }
    {
        match self.named(name) {
            Some(body) => body.close(alloc),
            None => Ok(Body::Nothing),
        }
    }
}
