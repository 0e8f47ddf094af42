// What is tried again for a while, once it has failed.
ghost use Rattle.std.specs.Prelude.{◌≡◌, None, nat_le, nat_lt};
ghost use Rattle.term_life.specs.Trials.{failed, last_try};

/// What is tried again for a while, once it has failed, with times of the monotonic clock in milliseconds.
#[derive(Clone, Copy)]
pub struct Trial {
    /// Until when it is tried again, once it has failed.
    until: Option<u64>,
    /// Until when to wait before it is tried.
    rest: u64,
}

impl Trial {
    /// What was not tried yet, and may be at once.
    pub fn new() -> Trial
        ensures { result ≡ record { until = None; rest = 0 } }
    {
        Trial {
            until: None,
            rest: 0,
        }
    }

    /// Whether it may be tried now.
    pub fn is_due(&self, now: u64) -> bool
        ensures { result ≡ nat_le self.now.rest now }
    {
        self.rest <= now
    }

    /// It has failed now. It says whether it is to be tried again, once `rest` has passed: it is until `patience` has
    /// passed since it failed first.
    pub fn fail(&mut self, now: u64, patience: u64, rest: u64) -> bool
        ensures again { result ≡ nat_lt now (last_try patience now self.old) }
        ensures noted { self.new ≡ failed patience rest now self.old }
    {
        let until = match self.until {
            Some(until) => until,
            None => now.saturating_add(patience),
        };
        if until <= now {
            return false;
        }
        self.until = Some(until);
        self.rest = now.saturating_add(rest);
        true
    }
}
