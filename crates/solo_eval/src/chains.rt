// Rows by their numbers, and their chains of makers.
ghost use Rattle.std.specs.Prelude.{◌≡◌, ◌<◌, Some, IfSome};
ghost use Rattle.std.specs.List.{list_any};
ghost use Rattle.job_language.specs.declared.instructions.TheConstants.{GROUPS};
ghost use Rattle.tenant_model.specs.State.{row};
ghost use Rattle.tenant_model.specs.Walks.{maker_of, is_within, region_of, is_group_cancelled, mark, chain};
ghost use Rattle.tenant_model.specs.Linked.{MakersPrecede};
ghost use Rattle.solo_eval.specs.Present.{IsNumberIn};

use tenant_model::{Kind, Mark, Row};

/// The row of a number.
pub(crate) fn row(rows: &[Row], number: u64) -> &Row
    requires row { IsNumberIn rows.now number }
    ensures { result.now ≡ row rows.now number }
{
    &rows[number as usize - 1]
}

/// The first region on a row's chain.
#[tactic(auto, using(tenant_model::proofs::Chains::chain_goes_on, tenant_model::proofs::Chains::chain_ends))]
pub(crate) fn region_of(rows: &[Row], number: u64) -> Option<u64>
    requires precede { MakersPrecede rows.now }
    requires row { IsNumberIn rows.now number }
    ensures { result ≡ region_of rows.now number }
{
    let mut at = number;
    loop {
        let kind = &row(rows, at).kind;
        if kind.is_region() {
            return Some(at);
        }
        match kind.maker() {
            Some(maker) => at = maker,
            None => return None,
        }
    }
}

/// Whether a row is on another one's chain.
#[tactic(auto, using(tenant_model::proofs::Chains::chain_goes_on, tenant_model::proofs::Chains::chain_ends))]
pub(crate) fn is_within(rows: &[Row], number: u64, region: u64) -> bool
    requires precede { MakersPrecede rows.now }
    requires row { IsNumberIn rows.now number }
    ensures { result ≡ is_within rows.now number region }
{
    let mut at = number;
    loop {
        if at == region {
            return true;
        }
        match row(rows, at).kind.maker() {
            Some(maker) => at = maker,
            None => return false,
        }
    }
}

/// The mark that a row keeps of one of its groups.
pub(crate) fn mark(rows: &[Row], number: u64, group: usize) -> Mark
    requires row { IsNumberIn rows.now number }
    requires group { group < GROUPS }
    ensures { result ≡ mark rows.now number group }
{
    row(rows, number).marks[group]
}

/// Whether a row was spawned into a group that was cancelled since its last passed wait.
fn is_group_cancelled(rows: &[Row], kind: &Kind) -> bool
    requires { IfSome (maker_of kind.now) (IsNumberIn rows.now) }
    ensures { result ≡ is_group_cancelled rows.now kind.now }
{
    match *kind {
        Kind::Spawned(maker, group) => mark(rows, maker, group.index()).cancelled,
        Kind::Root | Kind::Posted | Kind::Region(_) => false,
    }
}

/// Whether the group of some row on a row's chain was cancelled.
#[tactic(auto, using(tenant_model::proofs::Chains::chain_goes_on, tenant_model::proofs::Chains::chain_ends))]
pub(crate) fn has_cancelled_group(rows: &[Row], number: u64) -> bool
    requires precede { MakersPrecede rows.now }
    requires row { IsNumberIn rows.now number }
    ensures { result
        ≡ list_any (λ m. is_group_cancelled rows.now (row rows.now m).kind)
        (chain rows.now number) }
{
    let mut at = number;
    loop {
        let kind = &row(rows, at).kind;
        if is_group_cancelled(rows, kind) {
            return true;
        }
        match kind.maker() {
            Some(maker) => at = maker,
            None => return false,
        }
    }
}
