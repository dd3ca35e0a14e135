//! What C calls.

ghost use Rattle.std.specs.Prelude.{◌≡◌, ◌≢◌, Option};
ghost use Rattle.std.specs.Borrow.{full_share, sem};
ghost use Rattle.std.specs.Ptr.{lies_at};
ghost use Rattle.est_embed.specs.Handing.{IsHanded, lies_there};
ghost use Rattle.est_host.specs.Answers.{Answered};
ghost use Rattle.est_host.specs.Faults.{IsLoadFaultTold};
ghost use Rattle.est_host.specs.contracts.running.HostedMachine as running;

use crate::handed::Handed;
use est_host::answering::answer;
use est_host::loading::{HostFault, start};
use est_host::running::HostedMachine;
use std::alloc::Global;

/// Loads the module `main` of a text: a machine through `machine`, with status 0; or the number of
/// the fault, which is told through `fault`.
fn hand_out(
    alloc: Global,
    main: &[u8],
    text: &[u8],
    machine: &mut *mut u8,
    fault: &mut HostFault,
) -> Handed<HostedMachine>
    ensures handed { IsHanded main.now text.now result.status result.value }
    ensures at { result.at ≡ machine.new }
    ensures fault { result.status ≢ 0
        → (result.status ≡ fault.new.code) × IsLoadFaultTold main.now text.now fault.new }
    ensures same { result.status ≢ 0 → machine.new ≡ machine.old }
{
    match start(alloc, main, text) {
        Ok(running) => {
            let (at, handed) = Handed::of(running);
            *machine = at as *mut u8;
            handed
        }
        Err(told) => {
            *fault = told;
            Handed::refused(told.code, *machine as *mut HostedMachine)
        }
    }
}

/// A machine of its own memory for the module `main` of a text, through `machine`: 0, or the number
/// of the fault, which is told through `fault`; `machine` is then left as it was.
#[unsafe(no_mangle)]
pub extern "C" fn est_load_module(
    alloc: Global,
    main: &[u8],
    text: &[u8],
    machine: &mut *mut u8,
    fault: &mut HostFault,
) -> u64
    ensures* lies { ∃ₛ (λ (m : Option running.the_row.Denot).
        sem 𝓛 (lies_there running.the_row m machine.new)
        ∗ ⌜ IsHanded main.now text.now result m ⌝) }
    ensures fault { result ≢ 0 → (result ≡ fault.new.code)
        × IsLoadFaultTold main.now text.now fault.new }
    ensures same { result ≢ 0 → machine.new ≡ machine.old }
{
    let Handed { status, at: _ } = hand_out(alloc, main, text, machine, fault);
    status
}

/// Answers a question.
fn answer_on(running: &mut HostedMachine, question: u64, argument: u64) -> u64
    ensures { Answered running.old question argument result running.new }
{
    answer(running, question, argument)
}

/// Asks the machine at this pointer a question.
#[unsafe(no_mangle)]
pub unsafe extern "C" fn est_ask(at: *mut u8, question: u64, argument: u64) -> u64
    ghost m: { running.the_row.Denot }
    requires* { sem 𝓛 (lies_at running.the_row full_share at m) }
    ensures* { ∃ₛ (λ (n : running.the_row.Denot). sem 𝓛 (lies_at running.the_row full_share at n)
        ∗ ⌜ Answered m question argument result n ⌝) }
{
    answer_on(
        unsafe { &mut *(at as *mut HostedMachine) },
        question,
        argument,
    )
}
