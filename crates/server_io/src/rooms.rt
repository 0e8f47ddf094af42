// The folder in which a socket is made before its path leads to it.
ghost use Rattle.std.specs.Prelude.{ℕ, ◌≡◌, ◌≤◌, ◌↔◌, ◌⊎◌, ◌++◌, IfErr, IfOk, IsTrue, codes, string_bytes};
ghost use Rattle.std.specs.IoError.{error_kind};
ghost use Rattle.server_io.specs.Binds.{IsStepFault, room_at};
ghost use Rattle.server_io.specs.declared.endpoint.BindFault.TheVariants.{Device, NoRoom, Taken};

use crate::endpoint::{Access, BindFault};
use std::alloc::{AllocError, Global};
use std::fs::{DirBuilder, Files, Permissions};
use std::io::ErrorKind;
use std::net::Net;
use std::os::unix::fs::{DirBuilderExt, MetadataExt, PermissionsExt, chown};
use std::os::unix::net::UnixListener;
use std::{fs, io};

/// How many such folders there may be beside a path: those of servers that are starting, and those that were left by
/// servers killed as they started.
const MAX_ROOMS: u8 = 64;

/// A file: the device that it is on, and its number there.
#[derive(Clone, Copy, Debug, PartialEq, Eq)]
pub(crate) struct FileId {
    device: u64,
    inode: u64,
}

impl FileId {
    /// The file at a path, which may be a symbolic link. An error if there is none, or it can't be looked at.
    pub(crate) fn at<R: Files>(rt: &R, path: &str) -> io::Result<FileId> {
        let file = fs::symlink_metadata(rt, path)?;
        Ok(FileId {
            device: file.dev(),
            inode: file.ino(),
        })
    }
}

/// A folder that this start has made, and the path in it of the socket.
#[derive(Drop)]
pub(crate) struct Room {
    folder: String,
    socket: String,
}

impl Room {
    /// Makes a folder beside a path, which its owner alone may enter: `PATH.d`, or `PATH.d2` and so on up to 64 if that
    /// is taken. What is there already, a symbolic link too, is neither used nor removed. `NoRoom` if all are taken.
    pub(crate) fn make<R: Files>(rt: &R, alloc: Global, path: &str) -> Result<Room, BindFault>
        ensures room { IfOk result (λ room. (number : ℕ) × (1 ≤ number) × (number ≤ 64)
            × (string_bytes room.folder ≡ room_at path.now number)) }
        ensures fault { IfErr result (λ fault. (fault ≡ NoRoom) ⊎ IsStepFault fault) }
    {
        for number in 1..=MAX_ROOMS {
            let room = Room::new(alloc, path, number)?;
            match DirBuilder::new()
                .mode(0o700)
                .create(rt, room.folder.as_str())
            {
                Ok(()) => return Ok(room),
                Err(fault) if is_taken(&fault) => {}
                Err(_) => return Err(BindFault::Device),
            }
        }
        Err(BindFault::NoRoom)
    }

    /// The paths of the room of that number.
    fn new(alloc: Global, path: &str, number: u8) -> Result<Room, AllocError>
        ensures folder { IfOk result (λ room. string_bytes room.folder ≡ room_at path.now number) }
        ensures socket { IfOk result (λ room. string_bytes room.socket ≡ string_bytes room.folder ++ codes "/s") }
    {
        let folder = match number {
            1 => format!(in alloc; "{path}.d")?,
            _ => format!(in alloc; "{path}.d{number}")?,
        };
        let socket = format!(in alloc; "{}/s", folder.as_str())?;
        Ok(Room { folder, socket })
    }

    /// Makes a socket in the room, sets its group and its mode, and gives its file too. An error if one of the steps
    /// fails.
    pub(crate) fn listen<R: Files + Net>(
        &self,
        rt: &R,
        access: Access,
    ) -> io::Result<(UnixListener, FileId)> {
        let socket = self.socket.as_str();
        let listener = UnixListener::bind(rt, socket)?;
        let file = FileId::at(rt, socket)?;
        if access.group.is_some() {
            chown(rt, socket, None, access.group)?;
        }
        fs::set_permissions(rt, socket, Permissions::from_mode(access.mode))?;
        listener.set_nonblocking(true)?;
        Ok((listener, file))
    }

    /// Lets a path lead to the socket. `Taken` if something is there already, and `Device` if it can't be done.
    pub(crate) fn link<R: Files>(&self, rt: &R, path: &str) -> Result<(), BindFault>
        ensures { IfErr result (λ fault. (fault ≡ Taken) ⊎ (fault ≡ Device)) }
    {
        // Unlike a rename, it fails if there is something at the path.
        match fs::hard_link(rt, self.socket.as_str(), path) {
            Ok(()) => Ok(()),
            Err(fault) if is_taken(&fault) => Err(BindFault::Taken),
            Err(_) => Err(BindFault::Device),
        }
    }

    /// Removes the room, with the socket's first path.
    pub(crate) fn remove<R: Files>(self, rt: &R) {
        // The socket is there, unless it could not be made.
        let _ = fs::remove_file(rt, self.socket.as_str());
        let _ = fs::remove_dir(rt, self.folder.as_str());
    }
}

/// Whether a fault says that something is at the path already.
fn is_taken(fault: &io::Error) -> bool
    ensures { IsTrue result ↔ error_kind fault.now ≡ ErrorKind.AlreadyExists }
{
    fault.kind() == ErrorKind::AlreadyExists
}
