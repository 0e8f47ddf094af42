// Worked examples of sessions.
use super::super::expect_text;
use super::desks::Desk;
use crate::tests::assert_same;
use job_language::{Error, JobFault, Key, Level, Moved, Reply, Status};
use session_core::{SessionEnd, serve};
use std::alloc::Global;
use std::test::Fail;

const HELLO: &str = "{\"op\":\"hello\",\"tenant\":\"acme\"}\n";

const BOUND: &str = "{\"tenant\":\"acme\"}\n";

const EXECUTE: &str =
    "{\"job\":{\"args\":[7,0],\"fuel\":10,\"procs\":[[[\"ret\",0]]]},\"op\":\"execute\"}\n";

/// How a session at the desk ends that is sent these lines, and has to write what is wanted; and how many
/// binds, asks, collects and turns there were.
fn served(
    alloc: Global,
    mut desk: Desk<'_>,
    lines: &[&str],
    wanted: &str,
) -> Result<(SessionEnd, [usize; 4]), Fail> {
    let text = lines.concat(alloc)?;
    let mut reader = text.as_bytes();
    let mut written = Vec::new(alloc);
    let end = serve(alloc, &mut reader, &mut written, &mut desk)?;
    expect_text(written.as_slice(), wanted)?;
    let counts = [desk.bound, desk.asked, desk.collected, desk.turn];
    Ok((end, counts))
}

/// Lines of each kind.
const LINES: [&str; 12] = [
    "{\"job\":1,\"op\":\"poll\"}\n",
    "{\"op\":\"hello\",\"tenant\":\"zed\"}\n",
    " \t\r\n",
    HELLO,
    HELLO,
    "{\"key\":0,\"op\":\"cells\"}\n",
    "{\"op\":\"submit\"}\n",
    "{\"job\":1,\"op\":\"submit\"}\n",
    "{\"op\":\n",
    "{\"op\":\"arena\"}\n",
    "\n",
    "{\"job\":9,\"op\":\"poll\"}",
];

/// What is written for them.
const REPLIES: &str = r#"{"code":11,"error":"no_tenant"}
{"code":5,"error":"unknown_tenant"}
{"tenant":"acme"}
{"code":3,"error":"bad_request"}
{"count":0,"key":0,"sum":0}
{"code":3,"error":"bad_request"}
{"code":4,"error":"bad_program"}
{"code":2,"error":"bad_json"}
{"priority":"normal","reserved":1,"slots":1}
{"code":6,"error":"unknown_job"}
"#;

#[test]
fn each_line_has_its_reply(rt: HostRuntime) -> Result<(), Fail> {
    let key = Key::new(0).ok_or("a key")?;
    let replies = [
        (Reply::Cells(key, 0, 0), false),
        (Reply::Arena(Level::Normal, 1, 1), false),
        (Reply::Refused(Error::UnknownJob), false),
    ];
    let desk = Desk::new(&replies, &[], &[], 0);
    let served = served(rt.alloc(), desk, &LINES, REPLIES)?;
    assert_same(&rt, &served, &(SessionEnd::Ended, [1, 3, 0, 0]));
    Ok(())
}

#[test]
fn a_line_that_is_too_long_is_dropped(rt: HostRuntime) -> Result<(), Fail> {
    let long = " ".repeat(rt.alloc(), 65_537)?;
    let lines = [long.as_str(), "\n", HELLO];
    let desk = Desk::new(&[], &[], &[], 0);
    let wanted = r#"{"code":1,"error":"line_too_long"}
{"tenant":"acme"}
"#;
    let served = served(rt.alloc(), desk, &lines, wanted)?;
    assert_same(&rt, &served, &(SessionEnd::Ended, [1, 0, 0, 0]));
    Ok(())
}

#[test]
fn an_execute_is_answered_once_its_job_has_ended(rt: HostRuntime) -> Result<(), Fail> {
    let done = Reply::Job(1, Status::Complete(7));
    let fault = Reply::Job(2, Status::Fault(JobFault::Fuel));
    let replies = [(Reply::Placed(1, 0), true), (Reply::Made(2), false)];
    let outcomes = [Reply::Pending, Reply::Pending, done, Reply::Pending, fault];
    let turns = [Moved::Ran, Moved::Idle, Moved::Ran, Moved::Freed];
    let desk = Desk::new(&replies, &outcomes, &turns, 4);
    let wanted = r#"{"tenant":"acme"}
{"job":1,"status":"complete","value":7}
{"fault":2,"job":2,"status":"fault"}
"#;
    let served = served(rt.alloc(), desk, &[HELLO, EXECUTE, EXECUTE], wanted)?;
    assert_same(&rt, &served, &(SessionEnd::Ended, [1, 2, 5, 4]));
    Ok(())
}

#[test]
fn a_history_that_is_full_is_error_8(rt: HostRuntime) -> Result<(), Fail> {
    let replies = [(Reply::Placed(1, 0), true)];
    let turns = [Moved::Ran, Moved::Full, Moved::Ran];
    let desk = Desk::new(&replies, &[], &turns, 0);
    let wanted = r#"{"tenant":"acme"}
{"code":8,"error":"history_full"}
"#;
    let served = served(rt.alloc(), desk, &[HELLO, EXECUTE], wanted)?;
    assert_same(&rt, &served, &(SessionEnd::Ended, [1, 1, 0, 2]));
    Ok(())
}

#[test]
fn a_pause_stops_the_session_that_owes_a_reply(rt: HostRuntime) -> Result<(), Fail> {
    let replies = [(Reply::Placed(1, 0), true)];
    let turns = [Moved::Ran, Moved::Idle, Moved::Ran];
    let desk = Desk::new(&replies, &[], &turns, 0);
    let served = served(rt.alloc(), desk, &[HELLO, EXECUTE, HELLO], BOUND)?;
    assert_same(&rt, &served, &(SessionEnd::Stopped, [1, 1, 0, 2]));
    Ok(())
}

#[test]
fn a_pause_stops_a_session_whose_collect_is_pending(rt: HostRuntime) -> Result<(), Fail> {
    let pending = [Reply::Pending, Reply::Pending];
    let desk = Desk::new(&[], &pending, &[], 1);
    let lines = [HELLO, "{\"job\":1,\"op\":\"collect\"}\n"];
    let served = served(rt.alloc(), desk, &lines, BOUND)?;
    assert_same(&rt, &served, &(SessionEnd::Stopped, [1, 0, 2, 0]));
    Ok(())
}
