// Attending a slot of an arena.
ghost use Rattle.std.specs.Prelude.{◌≡◌, ◌≤◌};
ghost use Rattle.tenant_model.specs.State.{State};
ghost use Rattle.arena_core.specs.Stands.{StandsFor};
ghost use Rattle.session_law.specs.AttendedSlot.{Attends};

use crate::slot_door::ArenaDoor;
use arena_core::Arena;
use nested_wait::{Attended, attend};

/// Advances a slot until its stack has fewer rows than the floor, as an external thread works in
/// `task_arena::execute` until its own task is done. It takes no memory. A slot where nothing can run
/// now, and then nothing ever can without another step, is `Stopped`.
pub fn attend_slot(arena: &mut Arena, slot: u8, floor: usize) -> Attended
    requires { 1 ≤ floor }
    ensures { (s : State) → StandsFor arena.old s → Attends floor result slot s arena.new }
{
    attend_door(&mut ArenaDoor { arena, slot }, floor)
}

fn attend_door(door: &mut ArenaDoor<'_>, floor: usize) -> Attended
    requires { 1 ≤ floor }
    ensures same { door.new.arena.ghost_name ≡ door.old.arena.ghost_name }
    ensures attends { (s : State) → StandsFor door.old.arena.now s
        → Attends floor result door.old.slot s door.new.arena.now }
{
    // Proof hint: the tenant is valid.
    let _ = door.arena.config();
    attend(door, floor)
}
