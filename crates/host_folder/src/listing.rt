// The names in the folders of a host.
ghost use Rattle.std.specs.Prelude.{◌≡◌, ◌↔◌, ℕ, true, List, ◌++◌, codes, option_map};
ghost use Rattle.std.specs.List.{list_all};
ghost use Rattle.dump_files.specs.Paths.{IsPathOfPart};
ghost use Rattle.host_folder.specs.Paths.{is_digit, FindsJournal, FindsTerm, IsBeforePart, IsPartOf};

use crate::words::after;
use server_io::ServerFault;
use std::fs::Files;
use std::{fs, io};

/// The paths of the files in a folder whose names are texts.
pub(crate) fn listed<R: Files + AllocGlobal + Clone + Drop>(
    rt: &R,
    folder: &str,
) -> Result<Vec<String>, ServerFault> {
    match list(rt, folder) {
        Ok(paths) => Ok(paths),
        Err(fault) => Err(ServerFault::of_system(fault)),
    }
}

fn list<R: Files + AllocGlobal + Clone + Drop>(rt: &R, folder: &str) -> io::Result<Vec<String>> {
    let alloc = rt.alloc();
    let mut paths = Vec::new(alloc);
    for entry in fs::read_dir(rt, folder)? {
        match entry {
            Ok(entry) => paths.push(format!(in alloc; "{folder}/{}", entry.file_name())?)?,
            // A name that is no text is none of a host's.
            Err(fault) if fault.kind() == io::ErrorKind::InvalidFilename => {}
            Err(fault) => return Err(fault),
        }
    }
    Ok(paths)
}

/// Whether a path is that of a dump that was not written whole.
pub(crate) fn is_part(path: &str) -> bool
    ensures exact { (result ≡ true) ↔ ((front : List ℕ) × IsPartOf front path.now) }
    ensures left { (front : List ℕ) → IsPathOfPart (front ++ codes ".jsonl") path.now → result ≡ true }
{
    before_part(path).is_some()
}

/// The path of a dump whose part this is, without its end. None if it is the path of no part.
fn before_part(path: &str) -> Option<&str>
    ensures { IsBeforePart path.now (option_map (λ front. front.now) result) }
{
    let (dump, end) = path.rsplit_once('.')?;
    let front = dump.strip_suffix(".jsonl")?;
    let number = after(end, "part")?;
    if are_digits(number.as_bytes()) {
        Some(front)
    } else {
        None
    }
}

/// Whether a text has digits alone. It may have none.
fn are_digits(text: &[u8]) -> bool
    ensures { result ≡ list_all is_digit text.now }
{
    text.iter().all(|byte| byte.is_ascii_digit())
}

/// The name of the tenant and the number of the term of a file in a folder, if it has those of one.
pub(crate) fn parts_of<'a>(folder: &str, path: &'a str) -> Option<(&'a str, u64)>
    ensures { FindsTerm folder.now path.now (option_map (λ parts. (parts.0.now, parts.1)) result) }
{
    let rest = after(path, folder)?;
    let file = after(rest, "/")?;
    let (name, end) = file.split_once('.')?;
    let digits = end.strip_suffix(".jsonl")?;
    Some((name, digits.parse::<u64>().ok()?))
}

/// The name of the tenant, the number of the term and the base of its jobs' numbers of a journal in a folder, if a path
/// has those of one.
pub(crate) fn journal_in<'a>(folder: &str, path: &'a str) -> Option<(&'a str, u64, u64)>
    ensures { FindsJournal folder.now path.now
        (option_map (λ parts. (parts.0.now, parts.1, parts.2)) result) }
{
    let rest = after(path, folder)?;
    let file = after(rest, "/")?;
    let (name, end) = file.split_once('.')?;
    let (digits, last) = end.split_once('.')?;
    let base = last.strip_suffix(".jsonl")?;
    Some((name, digits.parse::<u64>().ok()?, base.parse::<u64>().ok()?))
}
