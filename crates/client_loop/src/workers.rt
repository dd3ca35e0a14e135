//! Workers that serve connections side by side, each at a seat of its own.
ghost use denote.Param.{param};
ghost use denote.Param.Send.{IsSend};
ghost use Rattle.std.specs.Prelude.{◌≡◌, IfOk, MatchResult};
ghost use Rattle.access_core.specs.declared.refusal.Refusal.TheVariants.{Memory};
ghost use Rattle.server_threads.specs.Turns.{AreBack};
ghost use Rattle.client_loop.specs.Workers.{ServesNext};

use crate::connections::serve_connection;
use crate::shared_desk::SharedDesk;
use crate::source::Source;
use access_core::refusal::Refusal;
use policy_board::board::Board;
use policy_board::board_name::BoardName;
use policy_board::reader::IdleReader;
use policy_board::seat::Seat;
use policy_board::sharing::boards_are_shared;
use server_threads::workers::{ReturnedSeats, Turn, Work, run_each};
use slot_table::table::SlotTable;
use std::alloc::{AllocError, Global};
use std::marker::PhantomData;
use std::sync::Wait;
use std::thread::Threads;

/// Lends workers a value of type T. By itself the prover doesn't find that threads may share a
/// board, or a table of sixteen slots. So `ConnectionServer` and `run_server` are generic over what
/// lends it, with the bound `Sync`, which is proved once: where `run_workers` calls `run_server`
/// (`boards_are_shared` and proofs/Sharing).
trait Lends<T> {
    /// The value.
    fn lent(&self) -> &T;
}

impl<B: BoardName> Lends<Board<B>> for Board<B> {
    fn lent(&self) -> &Board<B> {
        self
    }
}

impl<B: BoardName> Lends<SlotTable<B>> for SlotTable<B> {
    fn lent(&self) -> &SlotTable<B> {
        self
    }
}

/// What workers share: the board, the table, and where connections come from.
struct ConnectionServer<'a, B: BoardName, L, T, S> {
    alloc: Global,
    board: &'a L,
    table: &'a T,
    source: &'a S,
    of: PhantomData<B>,
}

impl<'a, B: BoardName + Send, L: Lends<Board<B>>, T: Lends<SlotTable<B>>, S: Source> Work
    for ConnectionServer<'a, B, L, T, S> {
    type Seat = Seat<B>;

    ghost turn = { λ worker number before after. ServesNext S.Reader.remaining S.Writer.contents
        S.gave S.took worker number before after };

    fn take_turn<R: Wait>(
        &self,
        rt: &R,
        worker: usize,
        number: u64,
        seat: Seat<B>,
    ) -> Turn<Seat<B>> {
        let Some(connection) = self.source.accept(worker, number) else {
            return Turn::Over(seat);
        };
        let mut desk = SharedDesk {
            rt,
            board: self.board.lent(),
            table: self.table.lent(),
            seat,
        };
        // Whatever the reason for which it ended, the worker goes on with the next one.
        let served = serve_connection(rt, self.alloc, connection, &mut desk);
        self.source.take_back(worker, number, served);
        let SharedDesk {
            rt: _,
            board: _,
            table: _,
            seat,
        } = desk;
        Turn::Taken(seat)
    }
}

/// Does nothing. By its bound the proof of `run_workers` learns that values of this type may cross
/// threads: a table of slots may be shared if the slots' readers may.
fn assert_send<T: Send>()
    ensures { IsSend (param 0 T.row) }
{}

/// Has workers serve over a board and a table that threads may share, as `run_workers` does.
fn run_server<
    B: BoardName + Send + Sync,
    L: Lends<Board<B>> + Sync,
    T: Lends<SlotTable<B>> + Sync,
    R: Threads + Wait + Sync,
    S: Source + Sync,
>(
    rt: &R,
    server: &ConnectionServer<'_, B, L, T, S>,
    seats: Vec<Seat<B>>,
    connections: u64,
) -> Result<ReturnedSeats<Seat<B>>, AllocError>
    ensures { IfOk result (λ back. AreBack (λ worker number before after.
        ServesNext S.Reader.remaining S.Writer.contents S.gave S.took worker number before after)
        connections back.all_taken seats.items back.seats.items) }
{
    run_each(rt, server.alloc, server, seats, connections)
}

/// Serves the connections of a source over this board and table, by a thread for each seat. All
/// threads are started before the source is asked. Each serves this number of connections one after
/// another, or as many as there are, and hands back to the source what is left of each. The call
/// waits for their ends, and tells whether each served all of its connections. The number of a
/// worker is its seat's place, counted from 0.
///
/// # Errors
///
/// Memory, where a thread could not be started, or memory was refused for that: then nothing was
/// accepted, and the seats are dropped.
pub fn run_workers<B: BoardName + Send + Sync, R: Threads + Wait + Sync, S: Source + Sync>(
    rt: &R,
    alloc: Global,
    table: &SlotTable<B>,
    board: &Board<B>,
    seats: Vec<Seat<B>>,
    source: &S,
    connections: u64,
) -> Result<ReturnedSeats<Seat<B>>, Refusal>
    ensures { MatchResult result
        (λ back. AreBack (λ worker number before after. ServesNext S.Reader.remaining
        S.Writer.contents S.gave S.took worker number before after)
        connections back.all_taken seats.items back.seats.items)
        (λ refusal. refusal ≡ Memory) }
{
    let server = ConnectionServer {
        alloc,
        board,
        table,
        source,
        of: PhantomData,
    };
    boards_are_shared::<B>();
    assert_send::<IdleReader<B>>();
    let back = run_server(rt, &server, seats, connections);
    let ConnectionServer {
        alloc: _,
        board: _,
        table: _,
        source: _,
        of: _,
    } = server;
    match back {
        Ok(back) => Ok(back),
        Err(_) => Err(Refusal::Memory),
    }
}
