// Rounds: a drawn tenant takes drawn steps, with jobs that are drawn from those given.
use crate::acts::{Act, Hand, draw_act, draw_move};
use crate::differences::Difference;
use crate::jobs::draw_jobs;
use crate::pairs::Pair;
use crate::stops::Stop;
use crate::tallies::Tally;
use crate::tenants::draw_tenant;
use job_language::{Answer, Job, Reply, Request, Step};
use rand::RngExt;
use rand_pcg::Pcg32;
use std::alloc::Global;

/// The stream of each generator.
pub(crate) const STREAM: u64 = 54;

/// How many turns a round has.
const TURNS: u8 = 4;

/// How many things of any kind are done in a turn.
const ANY: u64 = 150;

/// How many moves are made then at most, so that jobs get their outcome.
const MOVES: u64 = 1_500;

/// How many jobs are asked for at the end of a turn.
const COLLECTED: u64 = 12;

/// How many times a job is submitted at the start of a turn if the tenant shall meet its limit of jobs.
const FLOOD: u64 = 260;

/// The rounds that are taken: the seed of the first one, and how many there are.
#[derive(Clone, Copy)]
pub(crate) struct Rounds {
    pub(crate) seed: u64,
    pub(crate) count: u64,
}

/// A round under way.
pub(crate) struct Round<'a> {
    alloc: Global,
    seed: u64,
    jobs: &'a [Job],
    pair: Pair,
    draws: Pcg32,
    made: u64,
}

impl<'a> Drop for Round<'a> {
    // An owner drops it in one call, not part by part at each of its ways out.
    fn drop(self) {
        let Round {
            alloc: _alloc,
            seed: _seed,
            jobs: _jobs,
            pair: _pair,
            draws: _draws,
            made: _made,
        } = self;
    }
}

impl<'a> Round<'a> {
    /// A round with these jobs, of a tenant that has done nothing yet. What goes on is drawn by `draws`, which was
    /// begun with the seed.
    pub(crate) fn new(
        alloc: Global,
        seed: u64,
        draws: Pcg32,
        jobs: &'a [Job],
        pair: Pair,
    ) -> Round<'a> {
        Round {
            alloc,
            seed,
            jobs,
            pair,
            draws,
            made: 0,
        }
    }

    /// Does something to both, and compares them.
    fn take(&mut self, act: Act, tally: &mut Tally) -> Result<(), Stop> {
        let Some(both) = self.pair.take(act)? else {
            return Ok(());
        };
        tally.add(&both.solo)?;
        if let Answer::Replied(Reply::Made(job) | Reply::Placed(job, _)) = both.solo {
            self.made = job;
        }
        match both.difference().or(self.pair.difference()) {
            Some(difference) => self.stopped(difference),
            None => Ok(()),
        }
    }

    /// The round's end by a difference.
    fn stopped(&self, difference: Difference) -> Result<(), Stop> {
        let seed = self.seed;
        let text = format!(in self.alloc; "the round of seed {seed}: {difference:?}")?;
        Err(Stop::Differs(text))
    }

    /// Does anything that is drawn.
    pub(crate) fn take_any(&mut self, tally: &mut Tally) -> Result<(), Stop> {
        let hand = Hand {
            jobs: self.jobs,
            slots: self.pair.slots(),
            made: self.made,
        };
        let act = draw_act(&mut self.draws, &hand)?;
        self.take(act, tally)
    }

    /// Moves a slot that is drawn.
    pub(crate) fn move_any(&mut self, tally: &mut Tally) -> Result<(), Stop> {
        let act = draw_move(&mut self.draws, self.pair.slots());
        self.take(act, tally)
    }

    /// Asks for something.
    pub(crate) fn ask(&mut self, request: Request, tally: &mut Tally) -> Result<(), Stop> {
        self.take(Act::Step(Step::Ask(request)), tally)
    }

    /// Moves slots until nothing is left to do, at most `MOVES` times.
    fn work_off(&mut self, tally: &mut Tally) -> Result<(), Stop> {
        for _ in 0..MOVES {
            if self.pair.is_at_rest() {
                break;
            }
            self.move_any(tally)?;
        }
        Ok(())
    }

    /// Asks for the outcome of one of the last jobs, the last one being the first.
    pub(crate) fn collect_one(&mut self, back: u64, tally: &mut Tally) -> Result<(), Stop> {
        self.ask(Request::Collect(self.made.saturating_sub(back)), tally)
    }

    /// Asks for the outcomes of the last jobs.
    fn collect(&mut self, tally: &mut Tally) -> Result<(), Stop> {
        for back in 0..COLLECTED {
            self.collect_one(back, tally)?;
        }
        Ok(())
    }

    /// Submits a job that often.
    fn submit_all(&mut self, job: &Job, count: u64, tally: &mut Tally) -> Result<(), Stop> {
        for _ in 0..count {
            let request = Request::Submit(job.try_clone()?);
            self.ask(request, tally)?;
        }
        Ok(())
    }

    /// Does things of any kind.
    fn take_some(&mut self, tally: &mut Tally) -> Result<(), Stop> {
        for _ in 0..ANY {
            self.take_any(tally)?;
        }
        Ok(())
    }

    /// One turn: the tenant is asked for things, worked off and retired.
    fn turn(&mut self, tally: &mut Tally) -> Result<(), Stop> {
        self.take_some(tally)?;
        self.work_off(tally)?;
        self.collect(tally)?;
        self.ask(Request::Retire, tally)
    }

    /// All its turns. In a flood the tenant meets its limit of jobs.
    fn take_turns(&mut self, is_flood: bool, tally: &mut Tally) -> Result<(), Stop> {
        for _ in 0..TURNS {
            if let (true, Some(job)) = (is_flood, self.jobs.first()) {
                self.submit_all(job, FLOOD, tally)?;
            }
            self.turn(tally)?;
        }
        Ok(())
    }
}

/// Takes the round of a seed.
fn run_round(alloc: Global, seed: u64, given: &[Job], tally: &mut Tally) -> Result<(), Stop> {
    let mut draws = Pcg32::new(seed, STREAM);
    let Some(config) = draw_tenant(&mut draws) else {
        return Err(Stop::NoTenant);
    };
    let jobs = draw_jobs(&mut draws, given);
    let is_flood = draws.random_range(0u8..16) == 0;
    let mut round = Round::new(alloc, seed, draws, jobs, Pair::new(alloc, config)?);
    round.take_turns(is_flood, tally)
}

/// Takes rounds up to the first difference.
pub(crate) fn run_rounds(
    alloc: Global,
    rounds: Rounds,
    given: &[Job],
    tally: &mut Tally,
) -> Result<(), Stop> {
    for number in 0..rounds.count {
        run_round(alloc, rounds.seed.wrapping_add(number), given, tally)?;
    }
    Ok(())
}
