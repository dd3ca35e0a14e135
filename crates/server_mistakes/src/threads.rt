//! What becomes of the seats of workers.
ghost use Rattle.std.specs.Prelude.{IfOk};
ghost use Rattle.server_threads.specs.Turns.{AreBack};

use server_threads::workers;
use server_threads::workers::{ReturnedSeats, Work};
use std::alloc::{AllocError, Global};
use std::sync::Wait;
use std::thread::Threads;

/// Starts a thread for each seat, lets each worker take this number of turns, or as many as it
/// finds, and takes the seats back.
///
/// # Errors
///
/// Where a thread can't be started, or memory is refused.
pub fn run_each<W: Work + Sync, R: Threads + Wait + Sync>(
    rt: &R,
    alloc: Global,
    work: &W,
    seats: Vec<W::Seat>,
    turns: u64,
) -> Result<ReturnedSeats<W::Seat>, AllocError>
    ensures { IfOk result (λ back. AreBack W.turn turns back.all_taken seats.items
        back.seats.items) }
{
    workers::run_each(rt, alloc, work, seats, turns)
}
