// Sessions over memory: worked examples, and a reader that is always interrupted.
mod faults;
mod sessions;

use super::expect_text;
use arena_core::Arena;
use job_language::TenantConfig;
use session_core::SessionEnd;
use session_law::{ArenaDoors, serve_arenas};
use std::alloc::Global;
use std::io::Read;
use std::test::Fail;
use worked_jobs::tenant;

const HELLO: &str = "{\"op\":\"hello\",\"tenant\":\"acme\"}\n";

const BOUND: &str = "{\"tenant\":\"acme\"}\n";

/// Returns its argument.
const RETURNS: &str =
    "{\"job\":{\"args\":[7,0],\"fuel\":10,\"procs\":[[[\"ret\",0]]]},\"op\":\"execute\"}\n";

/// A tenant of one slot, which is reserved.
fn one_slot(name: &str, steps: usize) -> Result<TenantConfig, Fail> {
    Ok(tenant(name, 1, 1, steps).ok_or("each number is in its range")?)
}

/// Adds the arena of a tenant, with room for `steps` entries.
fn add_arena(alloc: Global, name: &str, steps: usize, doors: &mut ArenaDoors) -> Result<(), Fail> {
    let arena = Arena::new(alloc, one_slot(name, steps)?)?;
    doors.arenas.push(arena)?;
    Ok(())
}

fn add_both(alloc: Global, steps: usize, doors: &mut ArenaDoors) -> Result<(), Fail> {
    add_arena(alloc, "beta", steps, doors)?;
    add_arena(alloc, "acme", steps, doors)
}

/// The arenas of `beta` and `acme`, each with room for `steps` entries.
fn both(alloc: Global, steps: usize) -> Result<ArenaDoors, Fail> {
    let mut doors = ArenaDoors::new(Vec::new(alloc));
    add_both(alloc, steps, &mut doors)?;
    Ok(doors)
}

/// How a session ends that has this reader, and has to write what is wanted.
fn served_from<R: Read>(
    alloc: Global,
    reader: &mut R,
    wanted: &str,
    doors: &mut ArenaDoors,
) -> Result<SessionEnd, Fail> {
    let mut written = Vec::new(alloc);
    let end = serve_arenas(alloc, reader, &mut written, doors)?;
    expect_text(written.as_slice(), wanted)?;
    Ok(end)
}

/// The same of a session that is sent these lines.
fn served(
    alloc: Global,
    lines: &[&str],
    wanted: &str,
    doors: &mut ArenaDoors,
) -> Result<SessionEnd, Fail> {
    let text = lines.concat(alloc)?;
    served_from(alloc, &mut text.as_bytes(), wanted, doors)
}
