//! One thread for each seat.
ghost use Rattle.std.specs.Prelude.{◌≡◌, ◌≤◌, ℕ, true, [], map, IfOk, All, vec_capacity, vec_len};
ghost use Rattle.std.specs.List.{AllZip};
ghost use Rattle.server_threads.specs.Turns.{IsTurn, AreBack};
ghost use Rattle.server_threads.specs.Inner.Jobs.{HasWorked, jobs_of};

use core::thread::Stack;
use std::alloc::{AllocError, Global};
use std::marker::PhantomData;
use std::snapshot::Snapshot;
use std::sync::{Mutex, MutexGuard, Wait};
use std::thread;
use std::thread::{Promise, PromisedHandle, Scope, Threads};

/// The stack of a worker's thread, in bytes.
pub const WORKER_STACK_BYTES: usize = 32 * 1024 * 1024;

/// Whether there was a turn to take, with the seat as it then is.
pub enum Turn<S> {
    /// A turn was taken.
    Taken(S),
    /// There is none to take.
    Over(S),
}

/// What workers do, turn by turn.
pub trait Work {
    /// What a worker needs for its turns, and no other worker has.
    type Seat: Send + Drop;

    /// This worker's turn of this number takes a seat from this state to that.
    ghost turn: { ℕ → ℕ → Self.Seat → Self.Seat → Type 0 };

    /// Takes a turn of this worker. Workers and the turns of each are counted from 0.
    fn take_turn<R: Wait>(
        &self,
        rt: &R,
        worker: usize,
        number: u64,
        seat: Self::Seat,
    ) -> Turn<Self::Seat>
        ensures { IsTurn (turn worker number) seat result };
}

/// A worker's number, its seat, and how many turns it is to take.
#[derive(Drop)]
struct Job<S: Drop> {
    worker: usize,
    seat: S,
    turns: u64,
}

/// A worker's seat when it has ended, and how many turns it took.
#[derive(Drop)]
struct FinishedJob<S: Drop> {
    seat: S,
    taken: u64,
}

/// A worker's promise: its seat comes back, after no more turns than it is to take. `job` is the
/// job as it was handed out: a `Snapshot` keeps a value for the proofs alone.
struct GivesBack<W: Work> {
    job: Snapshot<Job<W::Seat>>,
    of: PhantomData<W>,
}

impl<W: Work> Drop for GivesBack<W> {
    fn drop(self) {
        let Self { job: _, of: _ } = self;
    }
}

impl<W: Work> Promise<FinishedJob<W::Seat>> for GivesBack<W> {
    ghost kept_by = { λ promise done. HasWorked W.turn promise.job.value done };
}

/// Takes the turns of a worker, or as many as there are.
fn take_turns<W: Work, R: Wait>(rt: &R, work: &W, job: Job<W::Seat>) -> FinishedJob<W::Seat>
    ensures { HasWorked W.turn job result }
{
    let Job {
        worker,
        seat,
        turns,
    } = job;
    let mut seat = seat;
    for taken in 0..turns {
        match work.take_turn(rt, worker, taken, seat) {
            Turn::Taken(next) => seat = next,
            Turn::Over(last) => return FinishedJob { seat: last, taken },
        }
    }
    FinishedJob { seat, taken: turns }
}

/// Waits until it is told whether all threads were started. If they were, takes the turns of a
/// worker.
fn begin<W: Work, R: Wait>(
    rt: &R,
    all_started: &Mutex<bool>,
    work: &W,
    job: Job<W::Seat>,
) -> FinishedJob<W::Seat>
    ensures { HasWorked W.turn job result }
{
    if *all_started.lock(rt) {
        take_turns(rt, work, job)
    } else {
        FinishedJob {
            seat: job.seat,
            taken: 0,
        }
    }
}

/// A thread that was started for a worker.
type Started<W> = PromisedHandle<FinishedJob<<W as Work>::Seat>, GivesBack<W>>;

/// Starts a thread for a worker, which promises to give its seat back.
fn start<'s, E, W: Work + Sync, R: Threads + Wait + Sync>(
    scope: &Scope<'s, E>,
    rt: &'s R,
    all_started: &'s Mutex<bool>,
    work: &'s W,
    job: Job<W::Seat>,
) -> Result<Started<W>, AllocError>
    ensures { IfOk result (λ handle. handle.promise.job.value ≡ job) }
{
    let promise = GivesBack {
        job: Snapshot::of(&job),
        of: PhantomData,
    };
    let work_here = move || begin(rt, all_started, work, job);
    let handle = Stack::new()
        .stack_size(WORKER_STACK_BYTES)
        .spawn_scoped_with(scope, promise, work_here)?;
    Ok(handle)
}

/// Starts a thread for each job, in room that was made for them, until one can't be started. Tells
/// whether all were.
fn start_each<'s, E, W: Work + Sync, R: Threads + Wait + Sync>(
    scope: &Scope<'s, E>,
    rt: &'s R,
    all_started: &'s Mutex<bool>,
    work: &'s W,
    jobs: Vec<Job<W::Seat>>,
    room: Vec<Started<W>>,
) -> (Vec<Started<W>>, bool)
    requires room { (room.items ≡ []) × (vec_len jobs ≤ vec_capacity room) }
    ensures few { vec_len result.0 ≤ vec_len jobs }
    ensures all { result.1 ≡ true
        → map (λ thread. thread.promise.job.value) result.0.items ≡ jobs.items }
{
    let mut threads = room;
    for job in jobs {
        match start(scope, rt, all_started, work, job) {
            Ok(thread) => threads.push_reserved(thread),
            Err(_) => return (threads, false),
        }
    }
    (threads, true)
}

/// Waits for each thread, and takes its seat back, in room that was made for them.
fn join_each<W: Work, R: Threads>(
    rt: &R,
    threads: Vec<Started<W>>,
    room: Vec<FinishedJob<W::Seat>>,
) -> Vec<FinishedJob<W::Seat>>
    requires room { (room.items ≡ []) × (vec_len threads ≤ vec_capacity room) }
    ensures { AllZip (λ job done. HasWorked W.turn job done)
        (map (λ thread. thread.promise.job.value) threads.items) result.items }
{
    let mut ended = room;
    for thread in threads {
        ended.push_reserved(thread.join(rt));
    }
    ended
}

/// Starts a thread for each job, lets all of them take their turns once each is started, and takes
/// the seats back.
fn run_all<W: Work + Sync, R: Threads + Wait + Sync>(
    rt: &R,
    alloc: Global,
    work: &W,
    jobs: Vec<Job<W::Seat>>,
) -> Result<Vec<FinishedJob<W::Seat>>, AllocError>
    ensures { IfOk result (λ ended. AllZip (λ job done. HasWorked W.turn job done) jobs.items
        ended.items) }
{
    let thread_room = Vec::with_capacity(alloc, jobs.len())?;
    let ended_room = Vec::with_capacity(alloc, jobs.len())?;
    let all_started = Mutex::new(false);
    let told = &all_started;
    thread::scope(
        thread::scope_env(),
        rt,
        |scope| -> Result<Vec<FinishedJob<W::Seat>>, AllocError>
            requires { (thread_room.items ≡ []) × (vec_len jobs ≤ vec_capacity thread_room)
                × (ended_room.items ≡ []) × (vec_len jobs ≤ vec_capacity ended_room) }
            ensures { IfOk result (λ ended. AllZip (λ job done. HasWorked W.turn job done)
                jobs.items ended.items) }
        {
            let mut tell = told.lock(rt);
            let (threads, all) = start_each(scope, rt, told, work, jobs, thread_room);
            *tell = all;
            MutexGuard::unlock(tell);
            let ended = join_each(rt, threads, ended_room);
            if all { Ok(ended) } else { Err(AllocError) }
        },
    )
}

/// Gives each seat a worker's number and this number of turns, in room that was made for them.
fn give_turns<S: Drop>(seats: Vec<S>, turns: u64, room: Vec<Job<S>>) -> Vec<Job<S>>
    requires room { (room.items ≡ []) × (vec_len seats ≤ vec_capacity room) }
    ensures { result.items ≡ jobs_of 0 turns seats.items }
{
    let mut jobs = room;
    for seat in seats {
        jobs.push_reserved(Job {
            worker: jobs.len(),
            seat,
            turns,
        });
    }
    jobs
}

/// The seats that came back.
#[derive(Drop)]
pub struct ReturnedSeats<S: Drop> {
    /// The seats, in order.
    pub seats: Vec<S>,
    /// Whether each worker took as many turns as it was to take. If not, one found no turn to take.
    pub all_taken: bool,
}

/// Takes the seats back, in room that was made for them.
fn take_back<S: Drop>(ended: Vec<FinishedJob<S>>, turns: u64, room: Vec<S>) -> ReturnedSeats<S>
    requires room { (room.items ≡ []) × (vec_len ended ≤ vec_capacity room) }
    ensures seats { result.seats.items ≡ map (λ done. done.seat) ended.items }
    ensures all { result.all_taken ≡ true → All (λ done. done.taken ≡ turns) ended.items }
{
    let mut seats = room;
    let mut all_taken = true;
    for done in ended {
        let FinishedJob { seat, taken } = done;
        seats.push_reserved(seat);
        all_taken = all_taken && taken == turns;
    }
    ReturnedSeats { seats, all_taken }
}

/// Starts a thread for each seat, lets each worker take this number of turns once all are started,
/// or as many as it finds, and takes the seats back. A worker's number is its seat's place.
///
/// # Errors
///
/// Where a thread can't be started, or memory is refused: then no worker takes a turn, and the
/// seats are dropped.
pub fn run_each<W: Work + Sync, R: Threads + Wait + Sync>(
    rt: &R,
    alloc: Global,
    work: &W,
    seats: Vec<W::Seat>,
    turns: u64,
) -> Result<ReturnedSeats<W::Seat>, AllocError>
    ensures { IfOk result (λ back. AreBack W.turn turns back.all_taken seats.items
        back.seats.items) }
{
    let seat_room = Vec::with_capacity(alloc, seats.len())?;
    let job_room = Vec::with_capacity(alloc, seats.len())?;
    let jobs = give_turns(seats, turns, job_room);
    let ended = run_all(rt, alloc, work, jobs)?;
    Ok(take_back(ended, turns, seat_room))
}
