// What a pass notes of its slot's entries.
ghost use Rattle.std.specs.Prelude.{◌≡◌, ◌+◌, ◌≤◌, ◌++◌, length, vec_len, vec_capacity};
ghost use Rattle.tenant_record.specs.PassData.{told_of};

use job_language::Moved;

/// An entry of a slot, as the holder of the slot's pass keeps it. Rows are numbered from 1.
#[derive(Clone, Copy, Debug, PartialEq, Eq)]
pub(crate) enum Told {
    /// An arrival found the row of that number.
    Arrived(u64),
    Ran,
    Nested(u64),
    Freed,
}

/// Keeps what an advance was answered, if it is an entry.
pub(crate) fn note_move(log: &mut Vec<Told>, moved: Moved)
    requires { vec_len log.old + length (told_of moved) ≤ vec_capacity log.old }
    ensures items { log.new.items ≡ log.old.items ++ told_of moved }
    ensures capacity { vec_capacity log.new ≡ vec_capacity log.old }
{
    let told = match moved {
        Moved::Ran => Told::Ran,
        Moved::Nested(row) => Told::Nested(row),
        Moved::Freed => Told::Freed,
        Moved::Left | Moved::Idle | Moved::Stale | Moved::Full => return,
    };
    log.push_reserved(told);
}
