// Sessions whose reader or writer fails.
use super::desks::Desk;
use super::devices::{Few, Full, Slow};
use crate::tests::assert_same;
use session_core::{SessionEnd, serve};
use std::alloc::Global;
use std::test::Fail;

const LINES: &str = "{\"op\":\n\n{\"op\":\"arena\"}\n";

const WANTED: &str = "{\"code\":2,\"error\":\"bad_json\"}\n{\"code\":11,\"error\":\"no_tenant\"}\n";

/// How long the first reply is, with its newline.
const FIRST: usize = 30;

/// How many bytes of the replies were written; `None` if others were.
fn count_of(written: &[u8]) -> Option<usize> {
    if WANTED.as_bytes().starts_with(written) {
        Some(written.len())
    } else {
        None
    }
}

/// How a session ends whose writer takes `room` bytes, and how many bytes of the replies it took.
fn served_within(alloc: Global, room: usize) -> Result<(SessionEnd, Option<usize>), Fail> {
    let mut reader = LINES.as_bytes();
    let mut writer = Full {
        taken: Vec::new(alloc),
        room,
    };
    let mut desk = Desk::new(&[], &[], &[], 0);
    let end = serve(alloc, &mut reader, &mut writer, &mut desk)?;
    Ok((end, count_of(writer.taken.as_slice())))
}

#[test]
fn a_writer_that_fails_ends_the_session(rt: HostRuntime) -> Result<(), Fail> {
    for room in 0..WANTED.len() {
        let sent = if room < FIRST { room } else { room - FIRST };
        let end = SessionEnd::WriteFault { sent };
        assert_same(&rt, &served_within(rt.alloc(), room)?, &(end, Some(room)));
    }
    Ok(())
}

/// How a session ends whose reader gives these bytes and then fails, and how many bytes of the replies are
/// written.
fn served_until(alloc: Global, mut reader: Few<'_>) -> Result<(SessionEnd, Option<usize>), Fail> {
    let mut written = Vec::new(alloc);
    let mut desk = Desk::new(&[], &[], &[], 0);
    let end = serve(alloc, &mut reader, &mut written, &mut desk)?;
    Ok((end, count_of(written.as_slice())))
}

/// How many bytes of the replies are written for that many bytes of the lines.
fn answered(given: usize) -> usize {
    match given {
        0..7 => 0,
        7..23 => FIRST,
        _ => WANTED.len(),
    }
}

/// After how many bytes of the lines a session first ends or writes otherwise, by a reader that gives
/// `at_a_call` bytes at a call.
fn first_wrong(alloc: Global, at_a_call: usize) -> Result<Option<usize>, Fail> {
    for given in 0..=LINES.len() {
        let bytes = LINES.as_bytes().get(..given).ok_or("fewer bytes")?;
        let served = served_until(alloc, Few { bytes, at_a_call })?;
        if served != (SessionEnd::ReadFault, Some(answered(given))) {
            return Ok(Some(given));
        }
    }
    Ok(None)
}

#[test]
fn a_reader_that_fails_ends_the_session(rt: HostRuntime) -> Result<(), Fail> {
    for at_a_call in [1, 7, 100] {
        assert_same(&rt, &first_wrong(rt.alloc(), at_a_call)?, &None);
    }
    Ok(())
}

/// How a session ends whose writer takes `at_a_call` bytes at a call, and how many bytes of the replies it took.
fn served_by(alloc: Global, at_a_call: usize) -> Result<(SessionEnd, Option<usize>), Fail> {
    let mut reader = LINES.as_bytes();
    let mut writer = Slow {
        taken: Vec::new(alloc),
        at_a_call,
    };
    let mut desk = Desk::new(&[], &[], &[], 0);
    let end = serve(alloc, &mut reader, &mut writer, &mut desk)?;
    Ok((end, count_of(writer.taken.as_slice())))
}

#[test]
fn a_writer_takes_few_bytes_at_a_call(rt: HostRuntime) -> Result<(), Fail> {
    let ends = [served_by(rt.alloc(), 0)?, served_by(rt.alloc(), 1)?];
    let none = (SessionEnd::WriteFault { sent: 0 }, Some(0));
    let all = (SessionEnd::Ended, Some(WANTED.len()));
    assert_same(&rt, &ends, &[none, all]);
    Ok(())
}
