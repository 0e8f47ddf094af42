// One thread's calls at the doors of tenants, each of which goes on from what the thread has seen of that tenant's
// history.
ghost use Rattle.std.specs.Prelude.{◌≡◌, ◌≤◌, ◌<◌, IfSome, length};
ghost use Rattle.std.specs.Option.{is_some};
ghost use Rattle.job_language.specs.Collecting.{IsCollect};
ghost use Rattle.tenant_lock.specs.Doors.{ComesBack, ComesWith};
ghost use Rattle.tenant_lock.specs.Under.{IsAdvanceOf, IsArrivalOf, IsAskOf, IsCommitOf, IsGivenHome, IsHandOverOf};
ghost use Rattle.tenant_model.specs.Told.{placed_on};
ghost use Rattle.tenant_model.specs.declared.rows.TheConstants.{MAX_HEIGHT};
ghost use Rattle.tenant_record.specs.PassData.{GoesWith};
ghost use Rattle.tenant_record.specs.SeatData.{asked};
ghost use Rattle.server_doors.specs.Slots.{AreFronts, AreNumbered};
ghost use Rattle.server_doors.specs.SlotWays.{WasSeen};

use job_language::{Reply, Request};
use job_step::{Segment, View};
use market_config::Call;
use std::sync::Wait;
use tenant_book::{Front, Naming};
use tenant_lock::{MovedAndSeen, TenantDoor};
use tenant_record::{Arrived, AskOutcome, Pass, Seat};

/// Asks by a seat.
#[tactic(auto, using(crate::proofs::Sees::sees_on, crate::proofs::Sees::fronts_set))]
pub(crate) fn ask<J: Naming, R: Wait>(
    rt: &R,
    doors: &[TenantDoor<J>],
    fronts: &mut Vec<Front<J>>,
    seat: &mut Seat,
    request: Request,
) -> AskOutcome
    requires numbers { AreNumbered doors.now }
    requires fronts { AreFronts doors.now fronts.old.items }
    requires tenant { seat.old.tenant < length doors.now }
    ensures fronts { AreFronts doors.now fronts.new.items }
    ensures seat { seat.new ≡ asked seat.old request result.reply }
    ensures placed { GoesWith seat.old.tenant (placed_on result.reply) result.pass }
    ensures pending { result.reply ≡ Reply.Pending → IsCollect request }
    ensures cell { WasSeen seat.old.tenant fronts.old.items fronts.new.items
        (IsAskOf seat.old.tenant seat.old request result seat.new) }
{
    let tenant = seat.tenant();
    doors[tenant].ask(rt, &mut fronts[tenant], seat, request)
}

/// Arrives for a call.
#[tactic(auto, using(crate::proofs::Sees::sees_on, crate::proofs::Sees::fronts_set))]
pub(crate) fn arrive<J: Naming, R: Wait>(
    rt: &R,
    doors: &[TenantDoor<J>],
    fronts: &mut Vec<Front<J>>,
    call: Call,
) -> Arrived
    requires numbers { AreNumbered doors.now }
    requires fronts { AreFronts doors.now fronts.old.items }
    requires tenant { call.tenant < length doors.now }
    ensures fronts { AreFronts doors.now fronts.new.items }
    ensures comes { ComesWith call.tenant call.slot result.came result.pass }
    ensures cell { WasSeen call.tenant fronts.old.items fronts.new.items
        (IsArrivalOf call.tenant call result) }
{
    let tenant = call.tenant;
    doors[tenant].arrive(rt, &mut fronts[tenant], call)
}

/// Advances the slot of a pass, and looks at it.
#[tactic(auto, using(crate::proofs::Sees::sees_on, crate::proofs::Sees::fronts_set))]
pub(crate) fn advance_and_look<J: Naming, R: Wait>(
    rt: &R,
    doors: &[TenantDoor<J>],
    fronts: &mut Vec<Front<J>>,
    pass: Pass,
    view: &mut View,
) -> MovedAndSeen
    requires numbers { AreNumbered doors.now }
    requires fronts { AreFronts doors.now fronts.old.items }
    requires tenant { pass.tenant < length doors.now }
    ensures fronts { AreFronts doors.now fronts.new.items }
    ensures back { ComesBack pass result.advanced.moved result.advanced.pass }
    ensures cell { WasSeen pass.tenant fronts.old.items fronts.new.items
        (IsAdvanceOf pass result.advanced) }
    ensures most { IfSome result.height (λ height. height ≤ MAX_HEIGHT) }
{
    let tenant = pass.tenant();
    doors[tenant].advance_and_look(rt, &mut fronts[tenant], pass, view)
}

/// Advances the slot of a pass, and counts the rows on it.
#[tactic(auto, using(crate::proofs::Sees::sees_on, crate::proofs::Sees::fronts_set))]
pub(crate) fn advance_and_count<J: Naming, R: Wait>(
    rt: &R,
    doors: &[TenantDoor<J>],
    fronts: &mut Vec<Front<J>>,
    pass: Pass,
) -> MovedAndSeen
    requires numbers { AreNumbered doors.now }
    requires fronts { AreFronts doors.now fronts.old.items }
    requires tenant { pass.tenant < length doors.now }
    ensures fronts { AreFronts doors.now fronts.new.items }
    ensures back { ComesBack pass result.advanced.moved result.advanced.pass }
    ensures cell { WasSeen pass.tenant fronts.old.items fronts.new.items
        (IsAdvanceOf pass result.advanced) }
    ensures most { IfSome result.height (λ height. height ≤ MAX_HEIGHT) }
{
    let tenant = pass.tenant();
    doors[tenant].advance_and_count(rt, &mut fronts[tenant], pass)
}

/// Puts a private run in the place of an advance of the slot of a pass, and looks at it.
#[tactic(auto, using(crate::proofs::Sees::sees_on, crate::proofs::Sees::fronts_set))]
pub(crate) fn commit<J: Naming, R: Wait>(
    rt: &R,
    doors: &[TenantDoor<J>],
    fronts: &mut Vec<Front<J>>,
    pass: Pass,
    segment: Segment,
    view: &mut View,
) -> MovedAndSeen
    requires numbers { AreNumbered doors.now }
    requires fronts { AreFronts doors.now fronts.old.items }
    requires tenant { pass.tenant < length doors.now }
    ensures fronts { AreFronts doors.now fronts.new.items }
    ensures back { ComesBack pass result.advanced.moved result.advanced.pass }
    ensures cell { WasSeen pass.tenant fronts.old.items fronts.new.items
        (IsCommitOf pass segment result.advanced) }
    ensures most { IfSome result.height (λ height. height ≤ MAX_HEIGHT) }
{
    let tenant = pass.tenant();
    doors[tenant].commit_and_look(rt, &mut fronts[tenant], pass, segment, view)
}

/// Gives a pass home.
#[tactic(auto, using(crate::proofs::Sees::sees_on, crate::proofs::Sees::fronts_set))]
pub(crate) fn give_home<J: Naming, R: Wait>(
    rt: &R,
    doors: &[TenantDoor<J>],
    fronts: &mut Vec<Front<J>>,
    pass: Pass,
)
    requires numbers { AreNumbered doors.now }
    requires fronts { AreFronts doors.now fronts.old.items }
    requires tenant { pass.tenant < length doors.now }
    ensures fronts { AreFronts doors.now fronts.new.items }
    ensures cell { WasSeen pass.tenant fronts.old.items fronts.new.items (IsGivenHome pass) }
{
    let tenant = pass.tenant();
    doors[tenant].give_home(rt, &mut fronts[tenant], pass)
}

/// Gives a pass home, and gives the slot that became due.
#[tactic(auto, using(crate::proofs::Sees::sees_on, crate::proofs::Sees::fronts_set))]
pub(crate) fn hand_over<J: Naming, R: Wait>(
    rt: &R,
    doors: &[TenantDoor<J>],
    fronts: &mut Vec<Front<J>>,
    pass: Pass,
) -> Option<u8>
    requires numbers { AreNumbered doors.now }
    requires fronts { AreFronts doors.now fronts.old.items }
    requires tenant { pass.tenant < length doors.now }
    ensures fronts { AreFronts doors.now fronts.new.items }
    ensures cell { WasSeen pass.tenant fronts.old.items fronts.new.items (IsHandOverOf pass result) }
{
    let tenant = pass.tenant();
    doors[tenant].hand_over(rt, &mut fronts[tenant], pass)
}
