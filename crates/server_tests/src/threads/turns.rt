//! Workers over a count that they share.
ghost use Rattle.std.specs.Prelude.{◌≤◌};

use server_mistakes::threads::run_each;
use server_threads::workers::{Turn, Work};
use std::sync::Wait;
use std::sync::atomic::{AtomicU64, Ordering};
use std::test::Fail;

/// How many turns all workers of a test take together.
const TURNS: u64 = 100;

/// How many turns were begun.
#[derive(Drop)]
struct Rounds {
    begun: AtomicU64,
}

impl Work for Rounds {
    /// The turns that a worker took, on top of what it began with.
    type Seat = u64;

    ghost turn = { λ worker number before after. before ≤ after };

    fn take_turn<R: Wait>(&self, _rt: &R, _worker: usize, _number: u64, seat: u64) -> Turn<u64> {
        if self.begun.fetch_add(1, Ordering::SeqCst) < TURNS {
            Turn::Taken(seat.saturating_add(1))
        } else {
            Turn::Over(seat)
        }
    }
}

#[test]
fn workers_share_the_turns(rt: HostRuntime) -> Result<(), Fail> {
    let rounds = Rounds {
        begun: AtomicU64::new(0),
    };
    let seats = vec![in rt.alloc(); 0, 1000, 2000, 3000]?;
    let back = run_each(&rt, rt.alloc(), &rounds, seats, u64::MAX)?;
    assert!(&rt; !back.all_taken);
    let starts = back.seats.iter().map(|seat| *seat / 1000);
    assert!(&rt; starts.eq([0, 1, 2, 3]));
    let taken = back
        .seats
        .iter()
        .fold(0u64, |all, seat| all.saturating_add(*seat % 1000));
    assert_eq!(&rt; taken, TURNS);
    Ok(())
}

#[test]
fn each_worker_takes_its_turns(rt: HostRuntime) -> Result<(), Fail> {
    let rounds = Rounds {
        begun: AtomicU64::new(0),
    };
    let seats = vec![in rt.alloc(); 0, 1000, 2000, 3000]?;
    let back = run_each(&rt, rt.alloc(), &rounds, seats, TURNS / 4)?;
    assert!(&rt; back.all_taken);
    assert!(&rt; back.seats.iter().copied().eq([25, 1025, 2025, 3025]));
    Ok(())
}
