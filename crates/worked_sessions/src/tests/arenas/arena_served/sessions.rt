// Worked examples of sessions over arenas.
use super::{HELLO, RETURNS, both, served};
use crate::tests::assert_same;
use session_core::SessionEnd;
use std::alloc::Global;
use std::test::Fail;

/// The sixth Fibonacci number, a task for each smaller one.
const FIB: &str =
    "{\"job\":{\"args\":[6,0],\"fuel\":1000,\"procs\":[[[\"set\",2,2],[\"lt\",3,0,2],[\"jz\",3,4],[\"ret\",0],[\"set\",2,1],[\"sub\",3,0,2],[\"spawn\",0,0,3,1],[\"sub\",3,3,2],[\"spawn\",0,0,3,1],[\"wait\",4,5,0],[\"ret\",4]]]},\"op\":\"execute\"}\n";

/// How two such sessions end, one after the other.
fn served_twice(
    alloc: Global,
    first: (&[&str], &str),
    second: (&[&str], &str),
) -> Result<[SessionEnd; 2], Fail> {
    let mut doors = both(alloc, 10_000)?;
    Ok([
        served(alloc, first.0, first.1, &mut doors)?,
        served(alloc, second.0, second.1, &mut doors)?,
    ])
}

#[test]
fn jobs_are_executed(rt: HostRuntime) -> Result<(), Fail> {
    let first = [HELLO, RETURNS, FIB];
    let wanted_first = r#"{"tenant":"acme"}
{"job":1,"status":"complete","value":7}
{"job":2,"status":"complete","value":8}
"#;
    let second = [
        "{\"op\":\"hello\",\"tenant\":\"beta\"}\n",
        "{\"job\":1,\"op\":\"poll\"}\n",
    ];
    let wanted_second = r#"{"tenant":"beta"}
{"code":6,"error":"unknown_job"}
"#;
    let ends = served_twice(rt.alloc(), (&first, wanted_first), (&second, wanted_second))?;
    assert_same(&rt, &ends, &[SessionEnd::Ended, SessionEnd::Ended]);
    Ok(())
}

#[test]
fn a_collect_that_is_pending_stops_the_session(rt: HostRuntime) -> Result<(), Fail> {
    let lines = [
        HELLO,
        "{\"job\":{\"args\":[7,0],\"fuel\":10,\"procs\":[[[\"ret\",0]]]},\"op\":\"submit\"}\n",
        "{\"job\":1,\"op\":\"collect\"}\n",
        HELLO,
    ];
    let wanted = "{\"tenant\":\"acme\"}\n{\"job\":1}\n";
    let mut doors = both(rt.alloc(), 10_000)?;
    let end = served(rt.alloc(), &lines, wanted, &mut doors)?;
    assert_same(&rt, &end, &SessionEnd::Stopped);
    Ok(())
}
