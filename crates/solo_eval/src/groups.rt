// Task groups: the members of a group of a row.
ghost use Rattle.std.specs.Prelude.{◌≡◌, ◌<◌, ◌&&◌, nat_lt};
ghost use Rattle.job_language.specs.declared.instructions.TheConstants.{GROUPS};
ghost use Rattle.tenant_model.specs.Walks.{is_spawned_by, is_pending, total, is_used};
ghost use Rattle.solo_eval.specs.Present.{IsNumberIn};

use crate::chains::mark;
use tenant_model::{Kind, Row};

/// Whether a member of the group is open.
pub(crate) fn is_pending(rows: &[Row], maker: u64, group: usize) -> bool
    requires row { IsNumberIn rows.now maker }
    requires group { group < GROUPS }
    ensures { result ≡ is_pending rows.now maker group }
{
    let since = mark(rows, maker, group).rows;
    for (place, row) in rows.iter().enumerate() {
        if is_member(row, place as u64 + 1, maker, group, since) && row.phase.is_open() {
            return true;
        }
    }
    false
}

/// The wrapping sum of the values of the members that are done.
pub(crate) fn total(rows: &[Row], maker: u64, group: usize) -> i64
    requires row { IsNumberIn rows.now maker }
    requires group { group < GROUPS }
    ensures { result ≡ total rows.now maker group }
{
    let since = mark(rows, maker, group).rows;
    let mut total = 0i64;
    for (place, row) in rows.iter().enumerate() {
        if is_member(row, place as u64 + 1, maker, group, since) {
            total = total.wrapping_add(row.phase.value());
        }
    }
    total
}

/// Whether the group has a member.
pub(crate) fn is_used(rows: &[Row], maker: u64, group: usize) -> bool
    requires row { IsNumberIn rows.now maker }
    requires group { group < GROUPS }
    ensures { result ≡ is_used rows.now maker group }
{
    let since = mark(rows, maker, group).rows;
    for (place, row) in rows.iter().enumerate() {
        if is_member(row, place as u64 + 1, maker, group, since) {
            return true;
        }
    }
    false
}

/// Whether a row was spawned into the group after the first `since` rows.
fn is_member(row: &Row, number: u64, maker: u64, group: usize, since: u64) -> bool
    ensures { result ≡ (is_spawned_by maker group row.now.kind && nat_lt since number) }
{
    match row.kind {
        Kind::Spawned(by, into) => by == maker && into.index() == group && since < number,
        _ => false,
    }
}
