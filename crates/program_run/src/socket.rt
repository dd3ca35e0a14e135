//! Connections over a Unix socket, for many workers.
ghost use Rattle.std.specs.Prelude.{◌≡◌, IfErr, ⊤};
ghost use Rattle.program_run.specs.declared.fault.Fault.TheVariants as fault;

use crate::fault::Fault;
use client_loop::source::{Connection, Served, Source};
use std::fs;
use std::fs::Files;
use std::net::Net;
use std::os::unix::fs::MetadataExt;
use std::os::unix::net::{UnixListener, UnixStream};

/// Which file it is: its device, and its number there.
#[derive(Clone, Copy, PartialEq, Eq)]
struct FileId {
    device: u64,
    number: u64,
}

/// Which file stands at this path, if one does.
fn file_at<R: Files>(rt: &R, path: &str) -> Option<FileId> {
    let metadata = fs::symlink_metadata(rt, path).ok()?;
    Some(FileId {
        device: metadata.dev(),
        number: metadata.ino(),
    })
}

/// A socket at which clients are waited for, and the file that was made for it.
#[derive(Drop)]
pub struct Socket<'a> {
    listener: UnixListener,
    path: &'a str,
    file: Option<FileId>,
}

impl<'a> Socket<'a> {
    /// Makes a socket at this path, where nothing stands yet.
    ///
    /// # Errors
    ///
    /// Socket, where it cannot be made.
    pub fn bind<R: Files + Net>(rt: &R, path: &'a str) -> Result<Socket<'a>, Fault>
        ensures { IfErr result (λ f. f ≡ fault.Socket) }
    {
        // With an empty path Linux would choose a name by itself, which no client knows.
        if path.is_empty() {
            return Err(Fault::Socket);
        }
        match UnixListener::bind(rt, path) {
            Ok(listener) => Ok(Socket {
                listener,
                path,
                file: file_at(rt, path),
            }),
            Err(_) => Err(Fault::Socket),
        }
    }

    /// Removes the socket's file, if it is still the one at its path, and closes the socket.
    pub fn close<R: Files>(self, rt: &R) {
        let Socket {
            listener: _,
            path,
            file,
        } = self;
        if file.is_some() && file_at(rt, path) == file {
            let _ = fs::remove_file(rt, path);
        }
    }
}

/// A source that can be closed.
pub trait ClosableSource: Source {
    /// Closes the source: a client that comes then is refused, and one that waits finds its
    /// connection closed.
    fn close<R: Files>(self, rt: &R);
}

/// The connections that come to a socket. All workers accept at the one socket.
#[derive(Drop)]
pub struct SocketSource<'a> {
    socket: Socket<'a>,
}

impl<'a> SocketSource<'a> {
    /// The connections that come to this socket.
    pub fn new(socket: Socket<'a>) -> SocketSource<'a> {
        SocketSource { socket }
    }
}

impl<'a> Source for SocketSource<'a> {
    type Reader = UnixStream;

    type Writer = UnixStream;

    // No contract can say which connections come to a socket.
    ghost gave = { λ worker number connection. ⊤ };

    ghost took = { λ worker number served. ⊤ };

    fn accept(&self, _worker: usize, _number: u64) -> Option<Connection<UnixStream, UnixStream>> {
        // Bounded, so that the loop is proved to end.
        for _ in 0..u64::MAX {
            let (writer, _) = self.socket.listener.accept().ok()?;
            // If the stream can't be duplicated, it is dropped, and the next one is accepted.
            if let Ok(reader) = writer.try_clone() {
                return Some(Connection { reader, writer });
            }
        }
        None
    }

    fn take_back(&self, _worker: usize, _number: u64, served: Served<UnixStream, UnixStream>)
        ensures { ⊤ }
    {
        drop(served);
    }
}

impl<'a> ClosableSource for SocketSource<'a> {
    fn close<R: Files>(self, rt: &R) {
        self.socket.close(rt);
    }
}
