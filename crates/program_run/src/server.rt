//! The connections of a socket, served side by side over one policy and one table of slots.
ghost use Rattle.std.specs.Prelude.{◌≡◌, ◌≤◌, Err, true, vec_len};
ghost use Rattle.history_receipts.specs.declared.receipt_list.TheConstants.{SEATS};
ghost use Rattle.wire_reader.specs.Meters.{has_failed};
ghost use Rattle.program_run.specs.declared.fault.Fault.TheVariants as fault;
ghost use Rattle.client_loop.specs.Workers.{ServesNext};
ghost use Rattle.program_run.specs.Serving.{ClosesServer, ServesSource, ServesOverSocket};

use crate::fault::Fault;
use crate::reports::write_report;
use crate::socket::{ClosableSource, Socket, SocketSource};
use client_loop::workers::run_workers;
use policy_board::board::Board;
use policy_board::board_list::FreshList;
use policy_board::board_name::BoardName;
use policy_board::opening::Opened;
use policy_board::seat::Seat;
use program_words::invocation::{ServeOptions, WorkerCount};
use slot_table::table::SlotTable;
use std::alloc::Global;
use std::fs::Files;
use std::io::Write;
use std::marker::Brand;
use std::net::Net;
use std::sync::Wait;
use std::thread::Threads;
use wire_reader::meter::MeteredWriter;

/// Closes the server, whose workers have ended and given these seats back, and writes the report on
/// its journals.
fn close<B: BoardName, R: Wait, O: Write>(
    rt: &R,
    alloc: Global,
    board: Board<B>,
    table: SlotTable<B>,
    seats: Vec<Seat<B>>,
    output: &mut MeteredWriter<O>,
) -> Result<(), Fault>
    requires { vec_len seats ≤ SEATS }
    ensures closes { ClosesServer seats.items result (O.contents output.old.device)
        (O.contents output.new.device) }
    ensures failed { result ≡ Err fault.Write →
        has_failed output.old.faults output.new.faults ≡ true }
{
    match table.close(rt, alloc, board, seats) {
        Ok(histories) => write_report(alloc, &histories.policy, &histories.slots, output),
        Err(_) => Err(Fault::Mismatch),
    }
}

/// Serves the connections of a source over a new board of this name, with a seat for each worker.
/// Each worker serves as many connections as are asked for. When all workers have ended, it closes
/// the source, and then the server, so that no client comes to a server that will not answer.
///
/// # Errors
///
/// - Socket, where the source gave a worker no connection more;
/// - Memory, Mismatch and Write, as `serve` has them.
pub fn serve_source<
    B: BoardName + Send + Sync,
    R: Threads + Wait + Files + Sync,
    S: ClosableSource + Sync,
    O: Write,
>(
    rt: &R,
    alloc: Global,
    fresh: FreshList,
    workers: WorkerCount,
    connections: Option<u64>,
    source: S,
    output: &mut MeteredWriter<O>,
) -> Result<(), Fault>
    requires { fresh.seen.book ≡ B.book }
    ensures serves { ServesSource (λ worker number before after. ServesNext S.Reader.remaining
        S.Writer.contents S.gave S.took worker number before after)
        workers connections result (O.contents output.old.device)
        (O.contents output.new.device) }
    ensures failed { result ≡ Err fault.Write →
        has_failed output.old.faults output.new.faults ≡ true }
{
    let Ok(
        Opened {
            board,
            seats,
            readers,
        },
    ) = Board::<B>::open(rt, alloc, fresh, workers.count())
    else {
        source.close(rt);
        return Err(Fault::Memory);
    };
    let table = SlotTable::open(alloc, readers);
    let quota = connections.unwrap_or(u64::MAX);
    let served = run_workers(rt, alloc, &table, &board, seats, &source, quota);
    source.close(rt);
    let fault = match served {
        Ok(back) if back.all_taken => return close(rt, alloc, board, table, back.seats, output),
        Ok(_) => Fault::Socket,
        Err(_) => Fault::Memory,
    };
    board.close().journal(rt);
    Err(fault)
}

/// Serves the connections that come to a socket; each worker serves one after another. It ends when
/// all workers have ended: each after `connections` of them, if the service names a number, or when
/// it can accept no more. Then it takes the socket's file away, and closes the socket. If each
/// worker served all of its connections, it writes the report on the journals.
///
/// # Errors
///
/// - Socket, where the socket can't be made, or a connection could not be accepted;
/// - Memory, where memory was refused, or a thread could not be started;
/// - Mismatch, where the journals are not those of the calls that the workers made;
/// - Write, where the report could not be written.
pub fn serve<R: Threads + Wait + Net + Files + Sync, O: Write>(
    rt: &R,
    alloc: Global,
    service: &ServeOptions<'_>,
    output: &mut MeteredWriter<O>,
) -> Result<(), Fault>
    ensures serves { ServesSource ServesOverSocket service.now.workers service.now.connections
        result (O.contents output.old.device) (O.contents output.new.device) }
    ensures failed { result ≡ Err fault.Write →
        has_failed output.old.faults output.new.faults ≡ true }
{
    let source = SocketSource::new(Socket::bind(rt, service.path)?);
    let (workers, connections) = (service.workers, service.connections);
    // `Brand` is the name of the new board: the proof has it stand for the list of
    // `FreshList::new()`.
    serve_source::<Brand, R, SocketSource<'_>, O>(
        rt,
        alloc,
        FreshList::new(),
        workers,
        connections,
        source,
        output,
    )
}
