// The loop of a session.
ghost use Rattle.std.specs.Prelude.{◌≡◌, false, IfErr, IfOk, OnErr};
ghost use Rattle.nested_wait.specs.Runs.{Attends};
ghost use Rattle.nested_wait.specs.Turns.{Turn};
ghost use Rattle.request_reader.specs.Calls.{AreCalls};
ghost use Rattle.request_reader.specs.declared.turns.TheConstants.{MAX_TURNS};
ghost use Rattle.session_core.specs.Replies.{Replies};
ghost use Rattle.session_core.specs.Sessions.{Serves, Answers, HasCause, RefusesLong};
ghost use Rattle.session_core.specs.declared.serving.SessionEnd.TheVariants as session_end;

use crate::doors::Doors;
use crate::replying::reply_to;
use job_language::{Error, Reply};
use reply_writer::{Sink, WriteFault, reply_line, write_all_of};
use request_reader::{LineRead, LineReader, MAX_REQUEST, Source, is_blank};
use std::alloc::{AllocError, Global};

/// How a session ended.
#[derive(Clone, Copy, Debug, PartialEq, Eq)]
pub enum SessionEnd {
    /// The reader has no more bytes, and each line is answered.
    Ended,
    /// The reader failed.
    ReadFault,
    /// The writer failed within a reply, of which `sent` bytes went out.
    WriteFault { sent: usize },
    /// The reader was called 1,048,576 times.
    TurnLimit,
    /// A pause said to stop while a reply was owed.
    Stopped,
}

impl From<WriteFault> for SessionEnd {
    ghost from_gives = { λ fault end. end ≡ session_end.WriteFault fault.sent };

    fn from(fault: WriteFault) -> SessionEnd {
        SessionEnd::WriteFault { sent: fault.sent }
    }
}

/// Serves one client: each line is read and answered, one after another, until an end comes. Its
/// only memory of its own is the room for a line, so an error has read and written nothing.
pub fn serve<R: Source, W: Sink, D: Doors>(
    alloc: Global,
    reader: &mut R,
    writer: &mut W,
    doors: &mut D,
) -> Result<SessionEnd, AllocError>
    ensures serves { IfOk result (λ end.
        Serves (Replies D.finds D.binds D.asks D.waits
        (Attends (Turn D.views D.commits D.advances) D.heights D.pauses 1))
        (R.remaining reader.old) (R.remaining reader.new) (W.contents writer.old)
        (W.contents writer.new)
        (false, doors.old) doors.new end) }
    ensures cause { IfOk result (λ end.
        HasCause (R.failed reader.new) (AreCalls R.called MAX_TURNS 0 reader.old reader.new)
        (W.failed writer.new) end) }
    ensures refused { OnErr result ((reader.new ≡ reader.old) × (writer.new ≡ writer.old)
        × (doors.new ≡ doors.old)) }
{
    let mut lines = LineReader::new(alloc, MAX_REQUEST)?;
    let mut is_bound = false;
    loop {
        let answered = match lines.read_line(reader) {
            LineRead::Line => answer(alloc, lines.line(), writer, doors, &mut is_bound),
            LineRead::TooLong => refuse(writer),
            LineRead::End => Err(SessionEnd::Ended),
            LineRead::ReadFault => Err(SessionEnd::ReadFault),
            LineRead::TurnLimit => Err(SessionEnd::TurnLimit),
        };
        if let Err(end) = answered {
            return Ok(end);
        }
    }
}

/// Answers a line that is too long.
fn refuse<W: Sink>(writer: &mut W) -> Result<(), SessionEnd>
    ensures refuses { RefusesLong (W.contents writer.old) (W.contents writer.new) result }
    ensures cause { IfErr result (λ end. HasCause ⊥ ⊥ (W.failed writer.new) end) }
{
    let reply = reply_line(&Reply::Refused(Error::LineTooLong));
    write_all_of(writer, reply.line())?;
    Ok(())
}

/// Answers a line. A blank one has no answer.
fn answer<W: Sink, D: Doors>(
    alloc: Global,
    line: &[u8],
    writer: &mut W,
    doors: &mut D,
    is_bound: &mut bool,
) -> Result<(), SessionEnd>
    ensures answers { Answers
        (Replies D.finds D.binds D.asks D.waits
        (Attends (Turn D.views D.commits D.advances) D.heights D.pauses 1))
        line.now (is_bound.old, doors.old) (is_bound.new, doors.new) (W.contents writer.old)
        (W.contents writer.new) result }
    ensures cause { IfErr result (λ end. HasCause ⊥ ⊥ (W.failed writer.new) end) }
{
    if is_blank(line) {
        return Ok(());
    }
    let Some(reply) = reply_to(alloc, doors, is_bound, line) else {
        return Err(SessionEnd::Stopped);
    };
    write_all_of(writer, reply_line(&reply).line())?;
    Ok(())
}
