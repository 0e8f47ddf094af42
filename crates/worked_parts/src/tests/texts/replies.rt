// The lines of replies with the longest name and the numbers at the ends of their ranges.
use job_language::{Reply, Status, TenantName};
use reply_writer::reply_line;
use std::test::Fail;

/// Whether a reply has that line.
fn has_line(reply: &Reply, line: &str) -> bool {
    *reply != Reply::Pending && reply_line(reply).line() == line.as_bytes()
}

#[test]
fn the_longest_replies_have_their_lines(rt: HostRuntime) -> Result<(), Fail> {
    let longest = TenantName::new("abcdefghijklmnopqrstuvwxyz-01239").ok_or("a name")?;
    let table = [
        (
            Reply::Bound(longest),
            "{\"tenant\":\"abcdefghijklmnopqrstuvwxyz-01239\"}\n",
        ),
        (
            Reply::Job(u64::MAX, Status::Complete(i64::MIN)),
            "{\"job\":18446744073709551615,\"status\":\"complete\",\"value\":-9223372036854775808}\n",
        ),
        (
            Reply::Placed(u64::MAX, u8::MAX),
            "{\"job\":18446744073709551615,\"slot\":255}\n",
        ),
    ];
    for (reply, line) in table {
        assert!(rt; has_line(&reply, line));
    }
    Ok(())
}
