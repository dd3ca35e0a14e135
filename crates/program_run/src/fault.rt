//! Why the program ends with another status than 0.
ghost use Rattle.std.specs.Prelude.{◌≡◌, OnOk};
ghost use Rattle.std.specs.IoError.{error_kind};
ghost use Rattle.program_run.specs.Faults.{status_of, fault_of_taking, IsOfWords, IsTold};
ghost use Rattle.program_run.specs.Faults.{IsOutcome};

use program_words::fault::WordFault;
use std::io;
use std::io::{ErrorKind, Write};
use thiserror::Error;
use wire_reader::serving::EndReason;

/// A fault of the program. Its text goes to standard error.
#[derive(Debug, Drop, Error)]
pub enum Fault {
    /// The words are no invocation, or ask for help; with the text about them.
    #[error(transparent)]
    Words(clap::Error),
    /// A word that is not UTF-8, so that the words cannot be read.
    #[error("estserve: a word is not UTF-8")]
    Unreadable,
    #[error("estserve: read fault")]
    Read,
    #[error("estserve: write fault")]
    Write,
    #[error("estserve: no memory")]
    Memory,
    #[error("estserve: socket fault")]
    Socket,
    #[error("estserve: mismatch")]
    Mismatch,
}

impl Fault {
    /// The status with which the program ends: 2 for a fault of its words, else 1.
    pub fn status(&self) -> u8
        ensures { result ≡ status_of self.now }
    {
        match self {
            Fault::Words(_) | Fault::Unreadable => 2,
            Fault::Read | Fault::Write | Fault::Memory | Fault::Socket | Fault::Mismatch => 1,
        }
    }
}

impl From<WordFault> for Fault {
    ghost from_gives = { IsOfWords };

    fn from(fault: WordFault) -> Fault {
        match fault {
            WordFault::Words(error) => Fault::Words(error),
            WordFault::Memory => Fault::Memory,
        }
    }
}

/// Writes the fault's text, which ends in LF: clap's text for a fault of the words, else one line.
///
/// # Errors
///
/// Where it cannot be written.
pub fn tell<E: Write>(fault: &Fault, errors: &mut E) -> io::Result<()>
    ensures { OnOk result (IsTold fault.now (E.contents errors.old) (E.contents errors.new)) }
{
    match fault {
        // The text about words ends its own lines.
        Fault::Words(error) => write!(errors, "{error}"),
        // The texts are those of `#[error]`, each written with its LF as one constant, since the
        // contract names the bytes that are written.
        Fault::Unreadable => errors.write_all(b"estserve: a word is not UTF-8\n"),
        Fault::Read => errors.write_all(b"estserve: read fault\n"),
        Fault::Write => errors.write_all(b"estserve: write fault\n"),
        Fault::Memory => errors.write_all(b"estserve: no memory\n"),
        Fault::Socket => errors.write_all(b"estserve: socket fault\n"),
        Fault::Mismatch => errors.write_all(b"estserve: mismatch\n"),
    }
}

/// The fault where the words of the command line could not be taken: memory was refused, or else
/// one is not UTF-8.
pub fn taking_fault(error: &io::Error) -> Fault
    ensures { result ≡ fault_of_taking (error_kind error.now) }
{
    match error.kind() {
        ErrorKind::OutOfMemory => Fault::Memory,
        _ => Fault::Unreadable,
    }
}

/// What the end of a connection means for the program: a line over its limit is no fault.
pub fn outcome(why: EndReason) -> Result<(), Fault>
    ensures { IsOutcome why result }
{
    match why {
        EndReason::Closed | EndReason::TooLong => Ok(()),
        EndReason::ReadFault => Err(Fault::Read),
        EndReason::WriteFault => Err(Fault::Write),
        EndReason::Memory => Err(Fault::Memory),
    }
}
