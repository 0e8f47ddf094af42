// A session over arenas.
ghost use Rattle.std.specs.Prelude.{◌≡◌, IfOk, OnErr};
ghost use Rattle.request_reader.specs.Calls.{AreCalls};
ghost use Rattle.request_reader.specs.declared.turns.TheConstants.{MAX_TURNS};
ghost use Rattle.session_core.specs.Sessions.{HasCause};
ghost use Rattle.session_law.specs.Tenants.{Tenants};
ghost use Rattle.session_law.specs.Doors.{AreAt};
ghost use Rattle.session_law.specs.Sessions.{ServesTenants};

use crate::doors::ArenaDoors;
use reply_writer::Sink;
use request_reader::Source;
use session_core::{SessionEnd, serve};
use std::alloc::{AllocError, Global};

/// Serves one client. What is written is the text of a session by the definitions of the tenants'
/// steps, and the arenas then stand for the states that it leads to. An error has read and written
/// nothing.
pub fn serve_arenas<R: Source, W: Sink>(
    alloc: Global,
    reader: &mut R,
    writer: &mut W,
    doors: &mut ArenaDoors,
) -> Result<SessionEnd, AllocError>
    ensures serves { (ts : Tenants) → AreAt doors.old ts → IfOk result (λ end.
        ServesTenants (R.remaining reader.old) (R.remaining reader.new)
        (W.contents writer.old) (W.contents writer.new) ts doors.new end) }
    ensures cause { IfOk result (λ end.
        HasCause (R.failed reader.new)
        (AreCalls R.called MAX_TURNS 0 reader.old reader.new) (W.failed writer.new) end) }
    ensures refused { OnErr result ((reader.new ≡ reader.old) × (writer.new ≡ writer.old)
        × (doors.new ≡ doors.old)) }
{
    serve(alloc, reader, writer, doors)
}
