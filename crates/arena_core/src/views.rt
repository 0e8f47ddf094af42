// What is seen of a slot.
ghost use Rattle.std.specs.Prelude.{◌≡◌, ◌<◌, ◌↔◌, ℕ, IsTrue, is_some};
ghost use Rattle.tenant_model.specs.State.{State};
ghost use Rattle.tenant_model.specs.Walks.{top};
ghost use Rattle.arena_rows.specs.Represents.{Rests, RestsSomehow};
ghost use Rattle.arena_core.specs.Views.{IsSeen, IsTopmost};

use arena_rows::Parts;
use job_step::{Top, View};
use same_values::{is_same_frame, is_same_program};

/// What is seen of a slot.
pub(crate) fn view(parts: &Parts, slot: u8) -> View
    requires { RestsSomehow parts.now }
    ensures { (s : State) → Rests parts.now s → IsSeen s slot result }
{
    if !has_top(parts, slot) {
        return View::Bare;
    }
    let Ok(program) = parts.program(slot).try_clone() else {
        return View::Unshared;
    };
    View::Top(Top {
        program,
        frame: parts.frame(slot),
        slot,
        width: parts.config().slots,
    })
}

/// Whether a row is on a slot.
fn has_top(parts: &Parts, slot: u8) -> bool
    requires { RestsSomehow parts.now }
    ensures { (s : State) → Rests parts.now s → result ≡ is_some (top s.rows slot) }
{
    slot < parts.config().slots && parts.height(slot) > 0
}

/// Whether a frame is the topmost one of a slot.
pub(crate) fn is_topmost(parts: &Parts, slot: u8, top: &Top) -> bool
    requires { RestsSomehow parts.now }
    ensures { (s : State) → Rests parts.now s → IsTrue result ↔ IsTopmost s slot top.now }
{
    has_top(parts, slot)
        && top.slot == slot
        && top.width == parts.config().slots
        && is_same_frame(&top.frame, &parts.frame(slot))
        && is_same_program(&top.program, parts.program(slot))
}
