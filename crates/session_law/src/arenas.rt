// Single steps of one arena.
ghost use Rattle.std.specs.Prelude.{◌≡◌};
ghost use Rattle.job_language.specs.Collecting.{IsCollect};
ghost use Rattle.tenant_model.specs.State.{State};
ghost use Rattle.tenant_model.specs.Asks.{ask};
ghost use Rattle.arena_core.specs.Stands.{StandsFor, Takes};

use arena_core::Arena;
use job_language::{Reply, Request};

/// Asks an arena. A collect alone can be pending.
pub(crate) fn ask_arena(arena: &mut Arena, request: Request) -> Reply
    ensures takes { (s : State) → StandsFor arena.old s → Takes arena.new result (ask s request) }
    ensures pending { result ≡ Reply.Pending → IsCollect request }
{
    // Proof hint: the arena stands for some state.
    let _ = arena.config();
    arena.ask(request)
}
