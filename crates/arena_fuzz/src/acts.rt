// What is done to a tenant, as it is drawn.
use crate::stops::Stop;
use job_language::{Job, KEYS, Key, Request, Step};
use rand::RngExt;
use rand::seq::IndexedRandom;
use rand_pcg::Pcg32;

/// What is done to a tenant.
#[derive(Drop)]
pub(crate) enum Act {
    /// A step of its own.
    Step(Step),
    /// The private run of a slot's topmost frame is made and kept.
    See(u8),
    /// The private run that was kept is committed at a slot.
    Commit(u8),
    /// The private run of a slot's topmost frame is made and committed at once.
    SeeAndCommit(u8),
}

/// What is drawn from: the jobs, and how many slots and jobs the tenant has.
#[derive(Clone, Copy)]
pub(crate) struct Hand<'a> {
    pub(crate) jobs: &'a [Job],
    pub(crate) slots: u8,
    pub(crate) made: u64,
}

/// Draws any act.
pub(crate) fn draw_act(draws: &mut Pcg32, hand: &Hand) -> Result<Act, Stop> {
    match draws.random_range(0u8..8) {
        0..=1 => Ok(Act::Step(Step::Ask(draw_request(draws, hand)?))),
        _ => Ok(draw_move(draws, hand.slots)),
    }
}

/// Draws an arrival, an advance or a commit.
pub(crate) fn draw_move(draws: &mut Pcg32, slots: u8) -> Act {
    let slot = draw_slot(draws, slots);
    match draws.random_range(0u8..16) {
        0..=1 => Act::Step(Step::Arrive(slot)),
        2 => Act::See(slot),
        3 => Act::Commit(slot),
        4..=8 => Act::SeeAndCommit(slot),
        _ => Act::Step(Step::Advance(slot)),
    }
}

/// Draws a slot, in a few cases one that the tenant lacks.
fn draw_slot(draws: &mut Pcg32, slots: u8) -> u8 {
    if draws.random_range(0u8..64) == 0 {
        return draws.random_range(0u8..=255);
    }
    draws.random_range(0..slots.max(1))
}

fn draw_request(draws: &mut Pcg32, hand: &Hand) -> Result<Request, Stop> {
    match draws.random_range(0u8..32) {
        0..=7 => Ok(Request::Submit(draw_one(draws, hand.jobs)?)),
        8..=15 => Ok(Request::Execute(draw_one(draws, hand.jobs)?)),
        _ => Ok(draw_question(draws, hand.made)),
    }
}

/// Draws one of the jobs.
fn draw_one(draws: &mut Pcg32, jobs: &[Job]) -> Result<Job, Stop> {
    match jobs.choose(draws) {
        Some(job) => Ok(job.try_clone()?),
        None => Err(Stop::NoJobs),
    }
}

/// Draws a request that brings no job.
fn draw_question(draws: &mut Pcg32, made: u64) -> Request {
    let job = draws.random_range(0..=made.saturating_add(1));
    match draws.random_range(0u8..16) {
        0..=4 => Request::Poll(job),
        5..=6 => Request::Collect(job),
        7 => Request::Take(job),
        8 => Request::Release(job),
        9..=10 => Request::Cancel(job),
        11..=12 => draw_cells(draws),
        13 => Request::Arena,
        14 => Request::Hello(None),
        _ => Request::Retire,
    }
}

fn draw_cells(draws: &mut Pcg32) -> Request {
    match Key::new(draws.random_range(0..KEYS as u64)) {
        Some(key) => Request::Cells(key),
        None => Request::Arena,
    }
}
