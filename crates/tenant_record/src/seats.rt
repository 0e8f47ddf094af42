// Seats: the right to ask, with what its holders were told.
ghost use Rattle.std.specs.Prelude.{◌≡◌, length, true, IfOk};
ghost use Rattle.job_language.specs.Recorded.{is_recorded_reply};
ghost use Rattle.tenant_record.specs.SeatData.{asked, has_seat_room, is_full_reply, first_seat, first_seats};

use crate::replay::record;
use job_language::{Answer, Entry, Error, Reply, Request, Step, TenantConfig};
use std::alloc::{AllocError, Global};
use std::marker::Model;

/// The right to ask a tenant's arena. It can't be copied, and it keeps what its holders were told:
/// the asks that were recorded, with their replies, in order, and whether one was refused as at a
/// full history.
#[derive(Drop)]
pub struct Seat {
    tenant: usize,
    number: usize,
    limit: usize,
    log: Vec<Entry>,
    full: bool,
}

impl Model for Seat {
    ghost use Rattle.tenant_record.specs.SeatData.{SeatData};
    ghost use Rattle.tenant_record.specs.SeatFields.{seat_data, IsSeat};

    ghost Value = { SeatData };

    ghost view = { seat_data };

    ghost invariant = { IsSeat };
}

impl Seat {
    /// A seat that has asked nothing yet, with room for `limit` entries.
    fn new(alloc: Global, tenant: usize, limit: usize, number: usize) -> Result<Seat, AllocError>
        ensures { IfOk result (λ seat. seat ≡ first_seat tenant limit number) }
    {
        Ok(Seat {
            tenant,
            number,
            limit,
            log: Vec::with_capacity(alloc, limit)?,
            full: false,
        })
    }

    /// The number of its tenant, from 0.
    pub fn tenant(&self) -> usize
        ensures { result ≡ self.now.tenant }
    {
        self.tenant
    }

    /// Its number among the seats of its tenant, from 0.
    pub fn number(&self) -> usize
        ensures { result ≡ self.now.number }
    {
        self.number
    }

    /// How many of its asks were recorded.
    pub fn count(&self) -> usize
        ensures { result ≡ length self.now.log }
    {
        self.log.len()
    }

    /// The asks that were recorded, with their replies, in order.
    pub fn log(&self) -> &[Entry]
        ensures { result.now ≡ self.now.log }
    {
        self.log.as_slice()
    }

    /// Whether one of its asks was refused as at a full history.
    pub fn is_full(&self) -> bool
        ensures { result ≡ self.now.full }
    {
        self.full
    }

    /// Whether its log has room for an ask.
    pub fn has_room(&self) -> bool
        ensures { result ≡ has_seat_room self.now }
    {
        self.log.len() < self.limit
    }

    /// Tells its holder the reply to an ask.
    pub(crate) fn tell(&mut self, request: Request, reply: &Reply)
        requires { is_recorded_reply reply.now ≡ true → has_seat_room self.old ≡ true }
        ensures { self.new ≡ asked self.old request reply.now }
    {
        self.full = self.full || is_full_reply(reply);
        let answer = Answer::Replied(*reply);
        record(&mut self.log, Step::Ask(request), &answer);
    }
}

/// The seats of a tenant, numbered from 0, which have asked nothing yet. Each has room for all asks
/// that the tenant's history may have.
pub fn first_seats(
    alloc: Global,
    tenant: usize,
    config: TenantConfig,
    count: usize,
) -> Result<Vec<Seat>, AllocError>
    ensures { IfOk result (λ seats. seats.items ≡ first_seats tenant config.steps count) }
{
    let limit = config.tenant().steps;
    let mut seats = Vec::with_capacity(alloc, count)?;
    for number in 0..count {
        seats.push(Seat::new(alloc, tenant, limit, number)?)?;
    }
    Ok(seats)
}

fn is_full_reply(reply: &Reply) -> bool
    ensures { result ≡ is_full_reply reply.now }
{
    matches!(reply, Reply::Refused(Error::HistoryFull))
}
