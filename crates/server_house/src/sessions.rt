// What a thread of the server does.
ghost use Rattle.std.specs.Prelude.{◌≡◌, All, IfOk, OnErr};
ghost use Rattle.request_reader.specs.Calls.{AreCalls};
ghost use Rattle.request_reader.specs.declared.turns.TheConstants.{MAX_TURNS};
ghost use Rattle.session_core.specs.Sessions.{HasCause};
ghost use Rattle.server_house.specs.Returned.{IsGivenBack};
ghost use Rattle.server_house.specs.Sessions.{ServesClient};
ghost use Rattle.server_house.specs.Visits.{IsVisit, LeavesSlot, ServesNext};
ghost use Rattle.server_house.specs.Workers.{WorksThere};
ghost use Rattle.worker_main.specs.Visits.{told};

use crate::posts::{Client, Post};
use reply_writer::Sink;
use request_reader::Source;
use server_doors::{HeldSlot, SessionDoors};
use session_core::{SessionEnd, serve};
use std::alloc::{AllocError, Global};
use std::sync::Wait;
use tenant_book::{Front, Naming};
use tenant_lock::StopFlag;
use tenant_record::Seat;
use worker_main::{Bell, Gate, Signal, Visiting, worker};

/// Serves one client, and gives its session's end and the seats back, with what its asks were answered, or as they were
/// if there was no memory for a session, and what it has seen of each tenant's history. It waits for no job once the
/// flag is raised.
pub fn serve_client<J: Naming, R: Wait, I: Source, O: Sink>(
    rt: &R,
    alloc: Global,
    client: Client<'_, J>,
    is_gone: &StopFlag,
    reader: &mut I,
    writer: &mut O,
) -> (Result<SessionEnd, AllocError>, Vec<Seat>, Vec<Front<J>>)
    ensures served { IfOk result.0 (λ end. ServesClient client.entry (I.remaining reader.old)
        (I.remaining reader.new) (O.contents writer.old) (O.contents writer.new) result.1.items
        result.2.items end) }
    ensures cause { IfOk result.0 (λ end. HasCause (I.failed reader.new)
        (AreCalls I.called MAX_TURNS 0 reader.old reader.new) (O.failed writer.new) end) }
    ensures refused { OnErr result.0 ((reader.new ≡ reader.old) × (writer.new ≡ writer.old)
        × (result.1.items ≡ client.entry.seats)) }
    ensures given_back { All (IsGivenBack result.2.items) result.1.items }
{
    let mut doors = client.into_doors(rt, is_gone);
    let end = serve(alloc, reader, writer, &mut doors);
    let (seats, fronts, _ringer) = doors.into_parts();
    (end, seats, fronts)
}

/// Serves one client after another by doors that stay: the next one, whose session's end it gives. Then the doors are
/// at no slot, and can serve the one after it. An error has read and written nothing.
pub fn serve_next<J: Naming, R: Wait, I: Source, O: Sink>(
    alloc: Global,
    reader: &mut I,
    writer: &mut O,
    doors: &mut SessionDoors<'_, '_, J, R, Bell>,
) -> Result<SessionEnd, AllocError>
    ensures served { IfOk result (λ end. ServesNext (I.remaining reader.old) (I.remaining reader.new)
        (O.contents writer.old) (O.contents writer.new) doors.old doors.new end) }
    ensures cause { IfOk result (λ end. HasCause (I.failed reader.new)
        (AreCalls I.called MAX_TURNS 0 reader.old reader.new) (O.failed writer.new) end) }
    ensures refused { OnErr result ((reader.new ≡ reader.old) × (writer.new ≡ writer.old)
        × LeavesSlot doors.old doors.new) }
    ensures visit { IsVisit doors.old doors.new }
{
    let end = serve(alloc, reader, writer, doors);
    doors.leave();
    end
}

/// Serves calls until the signal tells to stop, as a worker of the post's house that visits slots in that way. The gate
/// sees each private run.
pub fn serve_calls<J: Naming, R: Wait, S: Signal, G: Gate>(
    rt: &R,
    post: Post<'_, J>,
    signal: &S,
    gate: &G,
    visiting: Visiting,
)
    ensures { WorksThere visiting (told (S.stops signal.now) (S.looked signal.now)) post.entry }
{
    let Post {
        house,
        pass,
        fronts,
    } = post;
    // A worker stops with the house.
    let never = StopFlag::new();
    let slots = HeldSlot::new(rt, house.doors.as_slice(), fronts, &never);
    let (_pass, slots) = worker(rt, &house.queues, pass, slots, signal, gate, visiting);
    let _fronts = slots.end();
}
