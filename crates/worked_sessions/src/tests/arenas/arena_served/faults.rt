// Sessions whose reader is interrupted at every call, or whose writer has too little room.
use super::{BOUND, HELLO, RETURNS, both, served, served_from};
use crate::tests::assert_same;
use session_core::SessionEnd;
use session_law::{ArenaDoors, serve_arenas};
use std::alloc::Global;
use std::io;
use std::io::{ErrorKind, Read};
use std::test::Fail;

/// A reader that gives one byte at a call, and is interrupted at each call once they end.
#[derive(Drop)]
struct Bytewise<'b> {
    bytes: &'b [u8],
}

impl Read for Bytewise<'_> {
    fn read(&mut self, room: &mut [u8]) -> io::Result<usize> {
        match self.bytes {
            [first, rest @ ..] if !room.is_empty() => {
                room[0] = *first;
                self.bytes = rest;
                Ok(1)
            }
            _ => Err(io::Error::from(ErrorKind::Interrupted)),
        }
    }
}

/// How a session ends whose reader gives this text, and that has to write what is wanted.
fn interrupted_after(alloc: Global, text: &str, wanted: &str) -> Result<SessionEnd, Fail> {
    let mut doors = both(alloc, 100)?;
    let bytes = text.as_bytes();
    served_from(alloc, &mut Bytewise { bytes }, wanted, &mut doors)
}

#[test]
fn a_reader_that_is_always_interrupted_is_left(rt: HostRuntime) -> Result<(), Fail> {
    let ends = [
        interrupted_after(rt.alloc(), "", "")?,
        interrupted_after(rt.alloc(), HELLO, BOUND)?,
    ];
    assert_same(&rt, &ends, &[SessionEnd::TurnLimit, SessionEnd::TurnLimit]);
    Ok(())
}

/// How a session ends that is sent these lines and has that room for its replies.
fn served_into(
    alloc: Global,
    lines: &[&str],
    room: &mut [u8],
    doors: &mut ArenaDoors,
) -> Result<SessionEnd, Fail> {
    let text = lines.concat(alloc)?;
    let mut writer = room;
    Ok(serve_arenas(alloc, &mut text.as_bytes(), &mut writer, doors)?)
}

#[test]
fn a_hello_is_cut_after_ten_bytes(rt: HostRuntime) -> Result<(), Fail> {
    let mut doors = both(rt.alloc(), 100)?;
    let mut written = [0; 10];
    let end = served_into(rt.alloc(), &[HELLO], written.as_mut_slice(), &mut doors)?;
    let cut = SessionEnd::WriteFault { sent: 10 };
    assert_same(&rt, &(end, written), &(cut, *b"{\"tenant\":"));
    Ok(())
}

const POLL: &str = "{\"job\":1,\"op\":\"poll\"}\n";

const POLLED: &str = "{\"tenant\":\"acme\"}\n{\"job\":1,\"status\":\"complete\",\"value\":7}\n";

#[test]
fn a_job_whose_reply_is_lost_is_complete(rt: HostRuntime) -> Result<(), Fail> {
    let mut doors = both(rt.alloc(), 100)?;
    let mut written = [0; 18];
    let lost = served_into(
        rt.alloc(),
        &[HELLO, RETURNS],
        written.as_mut_slice(),
        &mut doors,
    )?;
    let later = served(rt.alloc(), &[HELLO, POLL], POLLED, &mut doors)?;
    let nothing_went_out = SessionEnd::WriteFault { sent: 0 };
    assert_same(&rt, &[lost, later], &[nothing_went_out, SessionEnd::Ended]);
    Ok(())
}
