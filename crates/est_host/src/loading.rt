//! From bytes to a machine, or to the fault that C is told.

ghost use Rattle.std.specs.Prelude.{◌≡◌, Some, IfOk, IfErr};
ghost use Rattle.reactor_core.specs.Loading.{IsLoadFault};
ghost use Rattle.est_host.specs.Digests.{digest_of};
ghost use Rattle.est_host.specs.Faults.{IsBegun, IsStarted, IsLoadFaultTold, fault, fault_in_text};
ghost use Rattle.est_host.specs.Faults.{fault_of};

use crate::running::HostedMachine;
use est_machine::machine::Machine;
use est_text::place::Place;
use reactor_core::kernel_module::Module;
use reactor_core::reading::read_module;
use reactor_core::refusal::{ModuleRefusal, ReactorRefusal};
use sha2::{Digest, Sha256};
use std::alloc::{AllocError, Global};

/// The name or the text isn't UTF-8.
pub const NOT_TEXT: u64 = 100;
/// Memory was refused.
pub const MEMORY: u64 = 90;

/// Why a load is refused: the number that the server has for it, and for a fault of the text's
/// words its line and column, counted from 1, else 0.
#[repr(C)]
#[derive(Clone, Copy)]
pub struct HostFault {
    pub code: u64,
    pub line: u64,
    pub column: u64,
}

/// A fault that is no place in the text.
fn without_place(code: u64) -> HostFault
    ensures { result ≡ fault code 0 0 }
{
    HostFault {
        code,
        line: 0,
        column: 0,
    }
}

/// A fault at a place.
fn at_place(code: u64, place: Place) -> HostFault
    ensures { result ≡ fault code place.line place.column }
{
    HostFault {
        code,
        line: place.line,
        column: place.column,
    }
}

/// What C is told of a module's refusal.
fn fault_in_text(refusal: &ModuleRefusal) -> HostFault
    ensures { result ≡ fault_in_text refusal.now }
{
    let code = refusal.label().0 as u64;
    match refusal {
        ModuleRefusal::Lexical(place) => at_place(code, *place),
        ModuleRefusal::Syntax(place) => at_place(code, *place),
        _ => without_place(code),
    }
}

/// What C is told of a refusal.
fn fault_of(refusal: &ReactorRefusal) -> HostFault
    ensures { result ≡ fault_of refusal.now }
{
    match refusal {
        ReactorRefusal::Module(refusal) => fault_in_text(refusal),
        ReactorRefusal::JournalFull => without_place(MEMORY),
        ReactorRefusal::Memory => without_place(MEMORY),
    }
}

/// The digest of a text and the name of its main module.
fn digest_of(main: &str, text: &str) -> [u8; 32]
    ensures { result ≡ digest_of main.now text.now }
{
    let mut hasher = Sha256::new();
    hasher.update(main.as_bytes());
    hasher.update(&[0u8]);
    hasher.update(text.as_bytes());
    hasher.finalize()
}

/// The machine of the module `main` of a text, which has not begun; or its first fault, or memory
/// was refused.
fn begin(alloc: Global, main: &str, text: &str) -> Result<Machine, ReactorRefusal>
    ensures begun { IfOk result (IsBegun main.now text.now) }
    ensures fault { IfErr result (IsLoadFault main.now text.now) }
{
    let Module { kernel, relations } = read_module(alloc, main, text)?;
    Ok(Machine::begin(alloc, kernel, relations, digest_of(main, text))?)
}

/// The machine of the module `main` of a text, or the fault that is told.
fn load(alloc: Global, main: &[u8], text: &[u8]) -> Result<Machine, HostFault>
    ensures begun { IfOk result (IsBegun main.now text.now) }
    ensures told { IfErr result (IsLoadFaultTold main.now text.now) }
{
    let Ok(name) = std::str::from_utf8(main) else {
        return Err(without_place(NOT_TEXT));
    };
    let Ok(source) = std::str::from_utf8(text) else {
        return Err(without_place(NOT_TEXT));
    };
    match begin(alloc, name, source) {
        Ok(machine) => Ok(machine),
        Err(refusal) => Err(fault_of(&refusal)),
    }
}

/// A machine in memory of its own, or memory was refused.
fn boxed(alloc: Global, machine: Machine) -> Result<Box<HostedMachine>, AllocError>
    ensures { IfOk result (λ r. r.value.machine ≡ Some machine) }
{
    let running = HostedMachine {
        machine: Some(machine),
        given: 0,
        words: [0; 65],
    };
    Ok(Box::new(alloc, running)?)
}

/// The machine of the module `main` of a text, in memory of its own, or the fault.
pub fn start(alloc: Global, main: &[u8], text: &[u8]) -> Result<Box<HostedMachine>, HostFault>
    ensures started { IfOk result (λ r. IsStarted main.now text.now r.value) }
    ensures told { IfErr result (IsLoadFaultTold main.now text.now) }
{
    let machine = load(alloc, main, text)?;
    match boxed(alloc, machine) {
        Ok(running) => Ok(running),
        Err(_) => Err(without_place(MEMORY)),
    }
}
