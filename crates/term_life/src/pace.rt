// Whether one more worker is to come to a term at whose slots others are.
ghost use Rattle.std.specs.Prelude.{◌≡◌, ◌≢◌, ◌≤◌, ◌<◌, ◌+◌, IfNone, IfSome, Some, None, true, false, ◌-◌, ◌^◌, nat_lt, option_map};
ghost use Rattle.term_life.specs.Paces.{made, since, took, IsQuick, IsThick};
ghost use Rattle.term_life.specs.declared.pace.Stretch.TheVariants as stretch;
ghost use Rattle.term_life.specs.declared.pace.Verdict.TheVariants as verdict;

/// How long calls of a term are held back at most, in microseconds.
pub const MOST_HELD: u64 = 50_000;

/// Over how long the pace of a term is taken at least, in microseconds.
pub const STRETCH: u64 = 50;

/// From how many half microseconds an entry on the tenant's lock is free for most of the time, so that one more thread
/// makes it faster. Below that the lock would go from processor to processor, which takes longer than the entries.
pub const SLOW: u128 = 2;

/// Up to how many half microseconds an entry the threads that are there are in each other's way.
pub const THICK: u128 = 1;

/// How many stretches in a row have to be slow. One may be so because a thread lost its processor for a while.
const SLOW_STRETCHES: u8 = 2;

/// What is seen of a term at one moment.
#[derive(Clone, Copy)]
pub struct Glance {
    /// The time, in microseconds of the monotonic clock.
    pub at: u64,
    /// How many entries its history has.
    pub entries: u64,
    /// How many jobs were submitted that want a worker.
    pub submitted: u64,
}

/// Since when calls of a term are held back, and what was seen when its pace was last taken.
#[derive(Clone, Copy)]
pub struct Held {
    since: u64,
    last: Glance,
    /// How many stretches before that one were slow, in a row.
    slow: u8,
}

/// What follows from a glance.
#[derive(Clone, Copy, Debug, PartialEq, Eq)]
pub enum Verdict {
    /// A worker is to come.
    Comes,
    /// No worker is to come.
    Stays,
    /// No worker is to come, and of several that are there one is to leave.
    Leaves,
}

/// How fast the threads at the slots of a term get on. A worker that has a call of the term comes if a job was
/// submitted since the one before it came, or if entries take long, as they do if all threads there wait. Else the call
/// is held back, but not for longer than `MOST_HELD`.
#[derive(Clone, Copy)]
pub struct Pace {
    /// How many jobs had been submitted when a worker last came.
    submitted: u64,
    held: Option<Held>,
    /// How many workers may come without another glance.
    granted: u64,
}

/// What is known of a stretch of time.
#[derive(Clone, Copy, Debug, PartialEq, Eq)]
enum Stretch {
    /// Nothing yet.
    Short,
    /// Entries took long, and so they did in the stretches before it.
    Slow,
    Usual,
    /// Entries took no longer than they take where threads are in each other's way.
    Thick,
}

impl Held {
    /// How many half microseconds have passed since the pace was last taken.
    fn took(&self, now: Glance) -> u128
        ensures { result ≡ took self.now.last now }
    {
        u128::from(now.at.saturating_sub(self.last.at)) * 2
    }

    /// How many entries were made meanwhile.
    fn made(&self, now: Glance) -> u128
        ensures { result ≡ made self.now.last now }
    {
        u128::from(now.entries.saturating_sub(self.last.entries))
    }

    /// Whether entries took long since the pace was last taken, if that can be said.
    fn is_slow(&self, now: Glance) -> Option<bool>
        ensures quick { IsQuick self.now.last now → result ≢ Some true }
        ensures short { now.at ≡ self.now.last.at → result ≡ None }
    {
        let took = self.took(now);
        if took < 2 * u128::from(STRETCH) {
            None
        } else {
            Some(took >= self.made(now) * SLOW)
        }
    }

    fn stretch(&self, now: Glance) -> Stretch
        ensures quick { IsQuick self.now.last now → result ≢ stretch.Slow }
        ensures thick { result ≡ stretch.Thick → IsThick self.now.last now }
        ensures short { now.at ≡ self.now.last.at → result ≡ stretch.Short }
    {
        let Some(is_slow) = self.is_slow(now) else {
            return Stretch::Short;
        };
        if is_slow && self.slow.saturating_add(1) >= SLOW_STRETCHES {
            Stretch::Slow
        } else if self.took(now) <= self.made(now) * THICK {
            Stretch::Thick
        } else {
            Stretch::Usual
        }
    }

    /// What is known after a glance. Calls are held back anew if they were for so long that a worker came.
    fn after(self, now: Glance, is_over: bool) -> Held
        ensures { is_over ≡ false → result.since ≡ self.since }
    {
        let since = if is_over { now.at } else { self.since };
        match self.is_slow(now) {
            None => Held { since, ..self },
            Some(is_slow) => Held {
                since,
                last: now,
                slow: if is_slow {
                    self.slow.saturating_add(1).min(SLOW_STRETCHES)
                } else {
                    0
                },
            },
        }
    }
}

impl Pace {
    /// The pace of a term to which nobody has come.
    pub fn new() -> Pace
        ensures { result ≡ record { submitted = 0; held = None; granted = 0 } }
    {
        Pace {
            submitted: 0,
            held: None,
            granted: 0,
        }
    }

    /// Whether a worker is to come now. If not, calls are held back from now on, unless they were before.
    pub fn judge(&mut self, now: Glance) -> Verdict
        ensures submitted { now.submitted ≢ self.old.submitted → result ≡ verdict.Comes }
        ensures most { IfSome self.old.held (λ h. h.since + MOST_HELD ≤ now.at → result ≡ verdict.Comes) }
        ensures begins { IfNone self.old.held (now.submitted ≡ self.old.submitted → result ≡ verdict.Stays) }
        ensures quick { IfSome self.old.held (λ h. now.submitted ≡ self.old.submitted
            → now.at < h.since + MOST_HELD → IsQuick h.last now → result ≢ verdict.Comes) }
        ensures leaves { result ≡ verdict.Leaves → IfSome self.old.held (λ h. IsThick h.last now) }
        ensures since { result ≢ verdict.Comes → option_map (λ h. h.since) self.new.held
            ≡ Some (since self.old.held now.at) }
    {
        let held = match self.held {
            Some(held) => held,
            None => Held {
                since: now.at,
                last: now,
                slow: 0,
            },
        };
        let is_over = now.at.saturating_sub(held.since) >= MOST_HELD;
        let stretch = held.stretch(now);
        let comes = now.submitted != self.submitted || is_over || stretch == Stretch::Slow;
        self.submitted = now.submitted;
        self.held = Some(held.after(now, is_over));
        if comes {
            Verdict::Comes
        } else if stretch == Stretch::Thick {
            Verdict::Leaves
        } else {
            Verdict::Stays
        }
    }

    /// A worker comes at which nobody looks, when so many jobs have been submitted.
    pub fn heed(&mut self, submitted: u64)
        ensures { self.new ≡ record self.old { submitted = submitted } }
    {
        self.submitted = submitted;
    }

    /// No call is held back any more.
    pub fn forget(&mut self)
        ensures { self.new ≡ record self.old { held = None } }
    {
        self.held = None;
    }

    /// Lets so many more workers come, whatever is seen then.
    pub fn grant(&mut self, count: u64)
        ensures held { self.new.held ≡ self.old.held }
        ensures submitted { self.new.submitted ≡ self.old.submitted }
        ensures more { self.old.granted ≤ self.new.granted }
        ensures granted { self.old.granted + count < 2 ^ 64 → self.new.granted ≡ self.old.granted + count }
    {
        self.granted = self.granted.saturating_add(count);
    }

    /// Takes what lets a worker come, if one may.
    pub fn take_grant(&mut self) -> bool
        ensures may { result ≡ nat_lt 0 self.old.granted }
        ensures taken { self.new ≡ record self.old { granted = self.old.granted - 1 } }
    {
        let may = self.granted > 0;
        self.granted = self.granted.saturating_sub(1);
        may
    }
}
