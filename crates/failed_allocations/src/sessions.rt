// A client's session over an arena, served again if an allocation failed, and the queues of calls.
use crate::jobs::{SERIAL, tenant};
use crate::retries::again;
use arena_core::Arena;
use call_queues::{CallQueues, QueuePass};
use job_language::Level;
use market_config::{MarketConfig, MarketTenant};
use session_law::{ArenaDoors, serve_arenas};
use std::alloc::{AllocError, Global};

/// What a session is sent that executes the job.
const WANTED: &str = r#"{"tenant":"acme"}
{"job":1,"status":"complete","value":8}
"#;

/// More bytes than a session is sent.
const ROOM: usize = 512;

/// How many passes the queues have.
const PASSES: usize = 2;

/// Whether a session that executes the job is sent its outcome. A session that got another answer, for
/// lack of memory, has made no job.
pub(crate) fn is_served(alloc: Global) -> Option<bool> {
    let mut doors = again(|| new_doors(alloc))?;
    let lines = again(|| lines(alloc).ok())?;
    let first = again(|| Vec::with_capacity(alloc, ROOM).ok())?;
    let second = again(|| Vec::with_capacity(alloc, ROOM).ok())?;
    Some(
        is_sent(alloc, lines.as_bytes(), first, &mut doors)
            || is_sent(alloc, lines.as_bytes(), second, &mut doors),
    )
}

/// How many passes queues that were made have.
pub(crate) fn passes(alloc: Global) -> Option<usize> {
    let (_queues, passes) = again(|| new_queues(alloc))?;
    Some(passes.len())
}

fn new_doors(alloc: Global) -> Option<ArenaDoors> {
    let mut arenas = Vec::new(alloc);
    arenas.push(Arena::new(alloc, tenant(alloc)?).ok()?).ok()?;
    Some(ArenaDoors::new(arenas))
}

/// The lines of the session.
fn lines(alloc: Global) -> Result<String, AllocError> {
    format!(in alloc;
        "{{\"op\":\"hello\",\"tenant\":\"acme\"}}\n{{\"job\":{SERIAL},\"op\":\"execute\"}}\n"
    )
}

/// Serves a session, and says whether it was sent the outcome.
fn is_sent(alloc: Global, lines: &[u8], room: Vec<u8>, doors: &mut ArenaDoors) -> bool {
    let mut reader = lines;
    let mut written = room;
    let served = serve_arenas(alloc, &mut reader, &mut written, doors);
    served.is_ok() && written.as_slice() == WANTED.as_bytes()
}

fn new_queues(alloc: Global) -> Option<(CallQueues, Vec<QueuePass>)> {
    let told = MarketTenant {
        level: Level::Normal,
        slots: 2,
        reserved: 1,
    };
    let config = MarketConfig::new(vec![in alloc; told].ok()?);
    CallQueues::new(alloc, config, PASSES).ok()
}
