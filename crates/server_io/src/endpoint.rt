// The socket of a server, and its file.
ghost use Rattle.std.specs.Prelude.{◌≡◌, ◌↔◌, ◌⊎◌, IfErr, IfOk, IsTrue, option_map};
ghost use Rattle.std.specs.IoError.{error_kind};
ghost use Rattle.server_io.specs.Binds.{why_of};
ghost use Rattle.server_io.specs.declared.endpoint.BindFault.TheVariants.{Device, Memory, Replaced, Taken};

use crate::rooms::{FileId, Room};
use std::alloc::{AllocError, Global};
use std::fs::Files;
use std::io::ErrorKind;
use std::net::Net;
use std::os::unix::net::{UnixListener, UnixStream};
use std::{fs, io};

/// Who may connect to a socket.
#[derive(Clone, Copy, Debug, PartialEq, Eq)]
pub struct Access {
    /// The mode of the socket's file. Who may write to it may connect.
    pub mode: u32,
    /// The group of the socket's file, if that is not the process' own.
    pub group: Option<u32>,
}

impl Access {
    /// The owner alone.
    pub const OWNER: Access = Access {
        mode: 0o600,
        group: None,
    };
}

/// Why nobody listens at a path.
#[derive(Clone, Copy, Debug, PartialEq, Eq)]
pub enum BindFault {
    /// Something is at the path already.
    Taken,
    /// Something is at the path of each folder in which the socket could be made.
    NoRoom,
    /// The path does not lead to the socket that was put there: somebody has replaced it.
    Replaced,
    /// One of the steps failed.
    Device,
    /// An allocation failed.
    Memory,
}

impl BindFault {
    /// What is wrong with the path, if it is the path.
    pub fn why(self) -> Option<&'static str>
        ensures { option_map (λ text. text.now) result ≡ why_of self }
    {
        match self {
            BindFault::Taken => Some("something is there already"),
            BindFault::NoRoom => Some("something is at each of its paths from .d to .d64 already"),
            BindFault::Replaced => Some("somebody has put another file there"),
            BindFault::Device => Some("no socket can be made there"),
            BindFault::Memory => None,
        }
    }
}

impl From<AllocError> for BindFault {
    ghost from_gives = { λ _ e. e ≡ Memory };

    fn from(_error: AllocError) -> BindFault {
        BindFault::Memory
    }
}

/// A socket that clients connect to, and the file at which it is found.
#[derive(Drop)]
pub struct Endpoint<'p> {
    pub(crate) listener: UnixListener,
    path: &'p str,
    file: FileId,
}

impl<'p> Endpoint<'p> {
    /// Listens at a path, for those who have access. The socket is made in a folder that nobody else has made, which
    /// its owner alone may enter, and stands at the path once its mode and group are set. At a fault nothing of it is
    /// left, and what else is at the path, or beside it, stays.
    pub fn bind<R: Files + Net>(
        rt: &R,
        alloc: Global,
        path: &'p str,
        access: Access,
    ) -> Result<Endpoint<'p>, BindFault>
        ensures path { IfOk result (λ endpoint. endpoint.path.now ≡ path.now) }
    {
        let room = Room::make(rt, alloc, path)?;
        let bound = bind_within(rt, &room, path, access);
        room.remove(rt);
        bound
    }

    /// Accepts a connection, if one waits. An error if the system fails to.
    pub fn accept(&self) -> io::Result<Option<UnixStream>> {
        match self.listener.accept() {
            Ok((stream, _address)) => Ok(Some(stream)),
            Err(fault) if is_nobody(&fault) => Ok(None),
            Err(fault) => Err(fault),
        }
    }

    /// Whether the path leads to this socket, as far as that can be known.
    pub fn is_there<R: Files>(&self, rt: &R) -> bool {
        match FileId::at(rt, self.path) {
            Ok(file) => file == self.file,
            Err(fault) => !is_nothing(&fault),
        }
    }

    /// Removes the socket's file. What else is at the path by now stays.
    pub fn remove<R: Files>(&self, rt: &R) {
        if self.is_there(rt) {
            // Somebody else may remove it first.
            let _ = fs::remove_file(rt, self.path);
        }
    }
}

/// Whether a fault of accepting says that nobody waits, or that the system was interrupted as it looked.
fn is_nobody(fault: &io::Error) -> bool
    ensures { IsTrue result
        ↔ (error_kind fault.now ≡ ErrorKind.WouldBlock) ⊎ (error_kind fault.now ≡ ErrorKind.Interrupted) }
{
    matches!(fault.kind(), ErrorKind::WouldBlock | ErrorKind::Interrupted)
}

/// Whether a fault of looking at a path says that nothing is there.
fn is_nothing(fault: &io::Error) -> bool
    ensures { IsTrue result
        ↔ (error_kind fault.now ≡ ErrorKind.NotFound) ⊎ (error_kind fault.now ≡ ErrorKind.NotADirectory) }
{
    matches!(fault.kind(), ErrorKind::NotFound | ErrorKind::NotADirectory)
}

/// Makes a socket in a room, and lets the path lead to it too. It is there only if that is the very socket that was
/// made.
fn bind_within<'p, R: Files + Net>(
    rt: &R,
    room: &Room,
    path: &'p str,
    access: Access,
) -> Result<Endpoint<'p>, BindFault>
    ensures path { IfOk result (λ endpoint. endpoint.path.now ≡ path.now) }
    ensures fault { IfErr result (λ fault. (fault ≡ Taken) ⊎ (fault ≡ Replaced) ⊎ (fault ≡ Device)) }
{
    let Ok((listener, file)) = room.listen(rt, access) else {
        return Err(BindFault::Device);
    };
    room.link(rt, path)?;
    let endpoint = Endpoint {
        listener,
        path,
        file,
    };
    // Whoever may write in the path's folder could have come between.
    match FileId::at(rt, path) {
        Ok(there) if there == endpoint.file => Ok(endpoint),
        _ => Err(BindFault::Replaced),
    }
}
