// Asks at a door that place no job.
ghost use Rattle.std.specs.Prelude.{◌≡◌};

use job_language::{Reply, Request};
use std::sync::Wait;
use tenant_book::Naming;
use tenant_lock::TenantDoor;
use tenant_record::{AskOutcome, Seat};

/// The reply to an ask of a seat. A pass that comes with it goes home.
pub(crate) fn reply_to<J: Naming, R: Wait>(
    rt: &R,
    door: &TenantDoor<J>,
    seat: &mut Seat,
    request: Request,
) -> Reply
    requires { seat.old.tenant ≡ door.now.tenant }
    ensures { seat.new.tenant ≡ door.now.tenant }
{
    let AskOutcome {
        reply,
        due: _due,
        pass,
    } = door.ask(rt, &mut door.front(), seat, request);
    if let Some(pass) = pass {
        door.give_home(rt, &mut door.front(), pass);
    }
    reply
}
