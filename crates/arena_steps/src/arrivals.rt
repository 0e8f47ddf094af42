// Arrivals at a slot by a caller who may have no room for one more entry.
ghost use Rattle.std.specs.Prelude.{◌≡◌, ◌&&◌, is_some};
ghost use Rattle.tenant_model.specs.State.{State};
ghost use Rattle.tenant_model.specs.Walks.{pick};
ghost use Rattle.tenant_model.specs.Advance.{is_open_to_workers};
ghost use Rattle.arena_rows.specs.Represents.{Gives, Rests, RestsSomehow};
ghost use Rattle.arena_steps.specs.Within.{arrive_within};

use arena_rows::Parts;
use job_language::Came;

/// Whether a worker who arrives at a slot would find a row there.
fn would_find(parts: &Parts, slot: u8) -> bool
    requires { RestsSomehow parts.now }
    ensures { (s : State) → Rests parts.now s
        → result ≡ (is_open_to_workers s slot && is_some (pick s slot)) }
{
    if !parts.is_open_to_workers(slot) {
        return false;
    }
    parts.pick(slot).is_some()
}

/// Lets a worker arrive at a slot, unless that is an entry and the caller has no room for one: then
/// the answer is that the history is full, and nothing changes.
pub fn arrive_within(parts: &mut Parts, slot: u8, has_room: bool) -> Came
    requires { RestsSomehow parts.old }
    ensures { (s : State) → Rests parts.old s
        → Gives parts.new result (arrive_within has_room s slot) }
{
    if has_room {
        return parts.arrive(slot);
    }
    if would_find(parts, slot) {
        return Came::Full;
    }
    parts.arrive(slot)
}
