//! A module and the inputs of its instants.

ghost use Rattle.est_rounds.specs.Contract.{AreInputs};

use crate::texts::kernel_of;
use anyhow::{Result, bail};
use est_kernel::kernel::Kernel;
use est_kernel::mask;
use est_kernel::state::Inputs;
use std::alloc::Global;

/// A kernel, and a mask of inputs for each instant. After the last mask the first one comes again.
#[derive(Drop)]
pub struct Case {
    pub kernel: Kernel,
    masks: Vec<u64>,
}

/// Those of the signals in the mask that may be offered.
fn offered(kernel: &Kernel, present: u64) -> Inputs
    ensures { AreInputs kernel.now result }
{
    Inputs {
        signals: mask::intersection(present, kernel.interface().offerable()),
    }
}

impl Case {
    /// The case of a text: the masks in hexadecimal, with commas between them, a blank, and a text
    /// with a module `M`.
    pub fn read(alloc: Global, text: &str) -> Result<Case> {
        let Some((inputs, module)) = text.split_once(' ') else {
            bail!("no case: {text}");
        };
        let mut masks = Vec::new(alloc);
        for word in inputs.split(',') {
            let Ok(mask) = u64::from_str_radix(word, 16) else {
                bail!("{word} is no mask");
            };
            masks.push(mask)?;
        }
        Ok(Case {
            kernel: kernel_of(alloc, module)?,
            masks,
        })
    }

    /// The inputs of an instant: those of its mask's signals that may be offered.
    pub fn inputs(&self, instant: u64) -> Inputs
        ensures { AreInputs self.now.kernel result }
    {
        let place = instant as usize % self.masks.len().max(1);
        offered(&self.kernel, self.masks.get(place).copied().unwrap_or(0))
    }
}
