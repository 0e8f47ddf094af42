// Small files that are replaced whole.

use std::alloc::Global;
use std::fs::{File, Files, OpenFile, OpenOptions};
use std::io::{ErrorKind, Read, Write};
use std::os::unix::fs::OpenOptionsExt;
use std::{fs, io};

/// How many bytes such a file has at most.
const MOST_BYTES: u64 = 1_048_576;

/// Puts a text at a path, in the place of what is there: it is written to a part beside it, brought to the disk and
/// renamed, and the folder is brought to the disk too. So there is one whole text at any moment, the one before or this
/// one.
pub(crate) fn put_text<R: Files<File = File>>(
    rt: &R,
    alloc: Global,
    folder: &str,
    path: &str,
    text: &[u8],
) -> io::Result<()> {
    let part = format!(in alloc; "{path}.part")?;
    // It is there if a host was killed meanwhile.
    let _ = fs::remove_file(rt, part.as_str());
    let mut options = OpenOptions::new();
    options.write(true).create_new(true).mode(0o600);
    let mut file = options.open(rt, part.as_str())?;
    file.write_all(text)?;
    file.sync_all()?;
    fs::rename(rt, part.as_str(), path)?;
    sync_folder(rt, folder)
}

/// Brings the names in a folder to the disk, if its file system can do that for a folder.
pub fn sync_folder<R: Files<File = File>>(rt: &R, folder: &str) -> io::Result<()> {
    match File::open(rt, folder)?.sync_all() {
        Err(fault) if fault.kind() != ErrorKind::InvalidInput => Err(fault),
        _ => Ok(()),
    }
}

/// The bytes of a file.
pub(crate) fn text_of<R: Files<File = File>>(
    rt: &R,
    alloc: Global,
    path: &str,
) -> io::Result<Vec<u8>> {
    let mut bytes = Vec::new(alloc);
    let file = File::open(rt, path)?;
    file.take(MOST_BYTES).read_to_end(&mut bytes)?;
    Ok(bytes)
}

/// All bytes of a file, however many it has.
pub(crate) fn bytes_of<R: Files<File = File>>(
    rt: &R,
    alloc: Global,
    path: &str,
) -> io::Result<Vec<u8>> {
    let mut bytes = Vec::new(alloc);
    let mut file = File::open(rt, path)?;
    file.read_to_end(&mut bytes)?;
    Ok(bytes)
}
