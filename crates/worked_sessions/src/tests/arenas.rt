// Arenas on one thread: a slot that is attended, and sessions.
mod arena_served;
mod attending;
mod desk_served;
mod waits;
mod worlds;

use std::test::Fail;

/// Fails with what was written, unless that is what was wanted.
fn expect_text(written: &[u8], wanted: &str) -> Result<(), Fail> {
    match str::from_utf8(written) {
        Ok(text) if text == wanted => Ok(()),
        Ok(text) => Err(Fail::new(text)),
        Err(_) => Err("no text")?,
    }
}
