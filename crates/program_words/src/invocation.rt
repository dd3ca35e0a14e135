//! What the program is asked to do.
ghost use Rattle.std.specs.Prelude.{◌≡◌, ◌≤◌, Some, None, if◌then◌else◌};
ghost use Rattle.program_words.specs.Counts.{may_work};
ghost use Rattle.program_words.specs.declared.invocation.TheConstants.{MOST_WORKERS};
ghost use Rattle.program_words.specs.declared.invocation.TheConstants.{DEFAULT_WORKERS};

use std::marker::Model;

/// The most workers that may be asked for.
pub const MOST_WORKERS: usize = 16;

/// How many workers there are if no number is given.
pub const DEFAULT_WORKERS: usize = 4;

/// The greatest number of connections after which a worker may be told to end.
pub const MOST_CONNECTIONS: u64 = 65_535;

/// A number of workers: from 1 to `MOST_WORKERS`. A contract sees the number.
#[derive(Clone, Copy, PartialEq, Eq)]
pub struct WorkerCount {
    count: usize,
}

impl Model for WorkerCount {
    ghost use Rattle.std.specs.Prelude.{ℕ, ◌≤◌};
    ghost use Rattle.program_words.specs.declared.invocation.TheConstants.{MOST_WORKERS};

    ghost Value = { ℕ };

    ghost view = { λ w. w.count };

    ghost invariant = { λ w. (1 ≤ w.count) × (w.count ≤ MOST_WORKERS) };

    ghost inverse = { λ n. record { count = n } };
}

impl WorkerCount {
    /// This number of workers, if it is allowed.
    pub fn new(count: usize) -> Option<WorkerCount>
        ensures { result ≡ (if may_work count then Some count else None) }
    {
        if 1 <= count && count <= MOST_WORKERS {
            Some(WorkerCount { count })
        } else {
            None
        }
    }

    /// The number.
    pub fn count(self) -> usize
        ensures count { result ≡ self }
        ensures some { 1 ≤ result }
        ensures few { result ≤ MOST_WORKERS }
    {
        self.count
    }
}

impl Default for WorkerCount {
    ghost is_default = { λ w. w ≡ DEFAULT_WORKERS };

    fn default() -> WorkerCount {
        WorkerCount {
            count: DEFAULT_WORKERS,
        }
    }
}

/// A service of the connections that come to a socket.
#[derive(Clone, Copy)]
pub struct ServeOptions<'a> {
    /// Where the socket is made.
    pub path: &'a str,
    /// How many connections are served at a time.
    pub workers: WorkerCount,
    /// After how many connections each worker ends; without a number they serve as many as come.
    pub connections: Option<u64>,
}

/// What the words ask for.
#[derive(Clone, Copy)]
pub enum Invocation<'a> {
    /// To serve standard input and standard output as one connection.
    Script {
        /// Whether a line on standard error tells how it ended.
        log: bool,
        /// Whether the report of an audit follows the answers.
        report: bool,
    },
    /// To serve the connections of a socket.
    Serve(ServeOptions<'a>),
}
