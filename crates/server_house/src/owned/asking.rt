// How a session asks the first tenant of a house, and waits there.
ghost use Rattle.std.specs.Prelude.{◌≡◌};
ghost use Rattle.job_language.specs.Collecting.{IsCollect};
ghost use Rattle.job_language.specs.declared.answers.Reply.{Reply};
ghost use Rattle.nested_wait.specs.Runs.{Attends};
ghost use Rattle.nested_wait.specs.Turns.{Turn};
ghost use Rattle.server_house.specs.Owned.{AsksAndAttends, AsksThere, IsPlace, client_of};
ghost use Rattle.server_house.specs.Sessions.{first_session};

use super::{OwnClient, Told};
use crate::house::House;
use call_queues::QueuePass;
use job_language::Request;
use nested_wait::attend;
use server_doors::{HeldSlot, SessionDoors};
use session_core::Doors;
use std::sync::Wait;
use tenant_book::{Front, Naming};
use tenant_lock::StopFlag;
use tenant_record::Seat;
use worker_main::{Ringer, Signal};

impl<J: Naming> OwnClient<J> {
    /// Asks the first tenant of the house. If a job is placed on a slot, the slot is attended until it is free, its
    /// history is full, or those who wait are told to stop.
    pub fn ask<R: Wait, S: Signal>(
        self,
        rt: &R,
        signal: &S,
        stop: &StopFlag,
        request: Request,
    ) -> (OwnClient<J>, Told)
        ensures house { result.0.post.house ≡ self.post.house }
        ensures asks { AsksThere self request result.1 result.0 }
        ensures pending { result.1.reply ≡ Reply.Pending → IsCollect request }
    {
        let OwnClient {
            house,
            pass,
            fronts,
            seats,
        } = self;
        let place = Place {
            pass,
            fronts,
            seats,
        };
        let (place, told) = ask_there(rt, &house, place, signal, stop, request);
        let Place {
            pass,
            fronts,
            seats,
        } = place;
        let client = OwnClient {
            house,
            pass,
            fronts,
            seats,
        };
        (client, told)
    }

    /// Waits while a job of the first tenant has no outcome, and says whether to stop: those who wait were told to, or
    /// the flag is raised.
    pub fn wait_for<R: Wait>(&self, rt: &R, job: u64, stop: &StopFlag) -> bool {
        let doors = self.house.doors.as_slice();
        let Some(seat) = self.seats.first() else {
            return true;
        };
        if seat.tenant() >= doors.len() {
            return true;
        }
        doors[seat.tenant()].pause_for_until(rt, seat, job, stop)
    }
}

/// What a client has of a house: a pass of its queues, what it has seen of each tenant's history, and a seat of each.
#[derive(Drop)]
struct Place<J: Naming> {
    pass: QueuePass,
    fronts: Vec<Front<J>>,
    seats: Vec<Seat>,
}

/// Asks the first tenant of a house from a place there.
fn ask_there<J: Naming, R: Wait, S: Signal>(
    rt: &R,
    house: &House<J>,
    place: Place<J>,
    signal: &S,
    stop: &StopFlag,
    request: Request,
) -> (Place<J>, Told)
    requires { IsPlace house.now place.pass place.fronts.items place.seats.items }
    ensures place { IsPlace house.now result.0.pass result.0.fronts.items result.0.seats.items }
    ensures asks { AsksThere (client_of house.now place.pass place.fronts.items place.seats.items)
        request result.1
        (client_of house.now result.0.pass result.0.fronts.items result.0.seats.items) }
    ensures pending { result.1.reply ≡ Reply.Pending → IsCollect request }
{
    let mut doors = first_doors(rt, house, place, signal, stop);
    let told = ask_and_attend(&mut doors, request);
    let (seats, fronts, ringer) = doors.into_parts();
    let pass = ringer.into_pass();
    let place = Place {
        pass,
        fronts,
        seats,
    };
    (place, told)
}

/// The doors of a session of a house that is at no slot.
fn first_doors<'h, J: Naming, R: Wait, S: Signal>(
    rt: &'h R,
    house: &'h House<J>,
    place: Place<J>,
    signal: &'h S,
    stop: &'h StopFlag,
) -> SessionDoors<'h, 'h, J, R, S>
    requires { IsPlace house.now place.pass place.fronts.items place.seats.items }
    ensures { result
        ≡ first_session (client_of house.now place.pass place.fronts.items place.seats.items) }
{
    let Place {
        pass,
        fronts,
        seats,
    } = place;
    let slots = HeldSlot::new(rt, house.doors.as_slice(), fronts, stop);
    let ringer = Ringer::new(rt, signal, &house.queues, pass);
    SessionDoors::new(slots, ringer, house.names.as_slice(), seats)
}

/// Asks, and attends the slot that a job is placed on.
fn ask_and_attend<D: Doors>(doors: &mut D, request: Request) -> Told
    ensures asks { AsksAndAttends D.asks
        (Attends (Turn D.views D.commits D.advances) D.heights D.pauses 1) request result doors.old
        doors.new }
    ensures pending { result.reply ≡ Reply.Pending → IsCollect request }
{
    let answered = doors.ask(request);
    let attended = if answered.placed {
        Some(attend(doors, 1))
    } else {
        None
    };
    Told {
        reply: answered.reply,
        attended,
    }
}
