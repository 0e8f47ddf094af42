// Readers and writers that fail.
use crate::tests::assert_same;
use arena_script::{ScriptEnd, script};
use std::alloc::Global;
use std::io;
use std::io::{ErrorKind, Read, Write};
use std::test::Fail;

/// A tenant of one slot, which is a worker's.
const TENANT: &str =
    r#"{"tenant":{"name":"acme","priority":"normal","reserved":0,"rows":8,"slots":1,"steps":100}}
"#;

/// A job that returns its first argument, from its submission to its outcome.
const STEPS: &str =
    r#"{"request":{"job":{"args":[7,0],"fuel":10,"procs":[[["ret",0]]]},"op":"submit"},"step":"ask"}
{"slot":0,"step":"arrive"}
{"slot":0,"step":"advance"}
{"request":{"job":1,"op":"poll"},"step":"ask"}
"#;

/// How long the first of them is, without its newline.
const SUBMIT: usize = 93;

const ANSWERS: &str = r#"{"job":1}
{"moved":"arrived","row":1}
{"moved":"ran"}
{"job":1,"status":"complete","value":7}
"#;

/// A reader that gives one byte at a call, and then fails.
#[derive(Drop)]
struct Bytewise<'b> {
    bytes: &'b [u8],
    failure: ErrorKind,
    calls: u64,
}

impl Bytewise<'_> {
    fn new(bytes: &[u8], failure: ErrorKind) -> Bytewise<'_> {
        Bytewise {
            bytes,
            failure,
            calls: 0,
        }
    }
}

impl Read for Bytewise<'_> {
    fn read(&mut self, room: &mut [u8]) -> io::Result<usize> {
        self.calls = self.calls.wrapping_add(1);
        match self.bytes {
            [first, rest @ ..] if !room.is_empty() => {
                room[0] = *first;
                self.bytes = rest;
                Ok(1)
            }
            _ => Err(io::Error::from(self.failure)),
        }
    }
}

/// A writer that has room for some bytes.
#[derive(Drop)]
struct Narrow {
    taken: Vec<u8>,
    room: usize,
}

impl Narrow {
    fn new(alloc: Global, room: usize) -> Narrow {
        Narrow {
            taken: Vec::new(alloc),
            room,
        }
    }
}

impl Write for Narrow {
    fn write(&mut self, bytes: &[u8]) -> io::Result<usize> {
        if self.room == 0 {
            return Err(io::Error::from(ErrorKind::BrokenPipe));
        }
        let count = bytes.len().min(self.room);
        self.taken.extend_from_slice(&bytes[..count])?;
        self.room -= count;
        Ok(count)
    }

    fn flush(&mut self) -> io::Result<()> {
        Ok(())
    }
}

/// How a script by that reader ends, whether it prints `want`, and how often the reader was called.
fn ended(alloc: Global, mut reader: Bytewise<'_>, want: &str) -> (ScriptEnd, bool, u64) {
    let mut printed = Vec::new(alloc);
    let end = script(alloc, &[], &mut reader, &mut printed);
    (end, printed.as_slice() == want.as_bytes(), reader.calls)
}

/// The same if the reader fails after that number of bytes of a text, with the number of calls that gave one.
fn ended_after(
    alloc: Global,
    text: &str,
    given: usize,
    want: &str,
) -> Option<(ScriptEnd, bool, u64)> {
    let bytes = text.as_bytes().get(..given)?;
    let reader = Bytewise::new(bytes, ErrorKind::TimedOut);
    let (end, is_wanted, calls) = ended(alloc, reader, want);
    Some((end, is_wanted, calls.checked_sub(1)?))
}

/// How many bytes of the tenant and the steps are given, and what is printed for them.
const GIVEN: [(usize, &str); 7] = [
    (0, ""),
    (TENANT.len() - 1, ""),
    (TENANT.len(), ""),
    (TENANT.len() + SUBMIT, ""),
    (TENANT.len() + SUBMIT + 1, "{\"job\":1}\n"),
    (TENANT.len() + SUBMIT + 2, "{\"job\":1}\n"),
    (TENANT.len() + STEPS.len(), ANSWERS),
];

#[test]
fn a_reader_that_fails_ends_the_script(rt: HostRuntime) -> Result<(), Fail> {
    let text = [TENANT, STEPS].concat(rt.alloc())?;
    for (given, want) in GIVEN {
        let ended = ended_after(rt.alloc(), text.as_str(), given, want);
        assert_same(&rt, &ended, &Some((ScriptEnd::Device, true, given as u64)));
    }
    Ok(())
}

#[test]
fn a_reader_that_is_always_interrupted_is_left(rt: HostRuntime) -> Result<(), Fail> {
    let text = [TENANT, STEPS].concat(rt.alloc())?;
    let after_none = Bytewise::new(&[], ErrorKind::Interrupted);
    let after_all = Bytewise::new(text.as_bytes(), ErrorKind::Interrupted);
    let ends = [
        ended(rt.alloc(), after_none, ""),
        ended(rt.alloc(), after_all, ANSWERS),
    ];
    let left = (ScriptEnd::Device, true, 1_048_576);
    assert_same(&rt, &ends, &[left, left]);
    Ok(())
}

/// How many bytes of the answers were taken; `None` if others were.
fn count_of(taken: &[u8]) -> Option<usize> {
    if ANSWERS.as_bytes().starts_with(taken) {
        Some(taken.len())
    } else {
        None
    }
}

/// How a script ends by a writer that has room for `room` bytes, and how many of the answers it takes.
fn ended_within(alloc: Global, text: &str, room: usize) -> (ScriptEnd, Option<usize>) {
    let mut reader = text.as_bytes();
    let mut writer = Narrow::new(alloc, room);
    let end = script(alloc, &[], &mut reader, &mut writer);
    (end, count_of(writer.taken.as_slice()))
}

#[test]
fn a_writer_that_fails_ends_the_script(rt: HostRuntime) -> Result<(), Fail> {
    let text = [TENANT, STEPS].concat(rt.alloc())?;
    for room in 0..=ANSWERS.len() {
        let end = if room < ANSWERS.len() {
            ScriptEnd::Device
        } else {
            ScriptEnd::Done
        };
        let ended = ended_within(rt.alloc(), text.as_str(), room);
        assert_same(&rt, &ended, &(end, Some(room)));
    }
    Ok(())
}

#[test]
fn a_writer_without_room_ends_a_check(rt: HostRuntime) {
    let mut reader = TENANT.as_bytes();
    let mut printed = [0; 3];
    let mut room = printed.as_mut_slice();
    let end = script(rt.alloc(), &["check"], &mut reader, &mut room);
    assert_same(&rt, &end, &ScriptEnd::Device);
}

/// Each end, with its status and what it reports.
const ENDS: [(ScriptEnd, u8, Option<&str>); 6] = [
    (ScriptEnd::Done, 0, None),
    (ScriptEnd::BadLine, 2, None),
    (ScriptEnd::Words, 2, Some("arena-script: words")),
    (ScriptEnd::Config, 2, Some("arena-script: config")),
    (ScriptEnd::Device, 3, Some("arena-script: device")),
    (ScriptEnd::Memory, 3, Some("arena-script: memory")),
];

#[test]
fn each_end_has_its_status(rt: HostRuntime) {
    for (end, status, fault) in ENDS {
        assert_same(&rt, &(end.status(), end.fault()), &(status, fault));
    }
}
