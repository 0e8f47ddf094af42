// When a tenant's next term is opened, and what is done once though it is looked at often.
ghost use Rattle.std.specs.Prelude.{◌≡◌, false, true};
ghost use Rattle.term_life.specs.Tendings.{configured, is_due, is_new_order, looked_for, next_step, rested, seen, stepped};

/// How many terms of a tenant may be there at once, whether they serve, finish, or wait to be written. Each has its
/// history in memory.
pub const MOST_TERMS: usize = 8;

/// What becomes of the wish for a tenant's next term.
#[derive(Clone, Copy)]
pub enum Step {
    /// No term is opened: the configuration does not have the tenant.
    Refuse,
    /// No term is opened yet: the last one could not be.
    Rest,
    /// The term waits until an older one is closed.
    Hold {
        /// Whether it did not wait when this was asked last.
        is_new: bool,
    },
    /// The term is opened.
    Open,
}

/// What decides whether a tenant's next term is opened, with times of the monotonic clock in milliseconds.
#[derive(Clone, Copy)]
pub struct Tending {
    /// Until when none is opened.
    rest: u64,
    /// Whether one waits until an older one is closed.
    is_held: bool,
    /// Whether the configuration has the tenant.
    is_configured: bool,
}

impl Tending {
    /// That of a tenant that the configuration has, and that has no term yet.
    pub fn new() -> Tending
        ensures { result ≡ record { rest = 0; is_held = false; is_configured = true } }
    {
        Tending {
            rest: 0,
            is_held: false,
            is_configured: true,
        }
    }

    /// Whether the configuration has the tenant.
    pub fn is_configured(&self) -> bool
        ensures { result ≡ self.now.is_configured }
    {
        self.is_configured
    }

    /// The configuration has the tenant from now on, or does not have it any more.
    pub fn configure(&mut self, is_configured: bool)
        ensures { self.new ≡ configured is_configured self.old }
    {
        self.is_configured = is_configured;
    }

    /// What becomes now of the wish for the next term, where the tenant has so many that are not closed.
    pub fn step(&mut self, now: u64, terms: usize) -> Step
        ensures step { result ≡ next_step now terms self.old }
        ensures noted { self.new ≡ stepped now terms self.old }
    {
        if !self.is_configured {
            return Step::Refuse;
        }
        if now < self.rest {
            return Step::Rest;
        }
        if terms >= MOST_TERMS {
            let is_new = !self.is_held;
            self.is_held = true;
            return Step::Hold { is_new };
        }
        self.is_held = false;
        Step::Open
    }

    /// A term could not be opened: none is for so long.
    pub fn rest(&mut self, now: u64, length: u64)
        ensures { self.new ≡ rested now length self.old }
    {
        self.rest = now.saturating_add(length);
    }
}

/// A file that asks for something to be done once, and may stay though that was begun.
#[derive(Clone, Copy)]
pub struct Order {
    /// Whether it was there when it was last looked for.
    is_there: bool,
}

impl Order {
    /// One that was not looked for yet.
    pub fn new() -> Order
        ensures { result ≡ record { is_there = false } }
    {
        Order { is_there: false }
    }

    /// Whether what the file asks for is to be begun, where the file is there now or not.
    pub fn look(&mut self, is_there: bool) -> bool
        ensures new { result ≡ is_new_order is_there self.old }
        ensures noted { self.new ≡ looked_for is_there self.old }
    {
        let is_new = is_there && !self.is_there;
        self.is_there = is_there;
        is_new
    }

    /// The file is gone.
    pub fn forget(&mut self)
        ensures { self.new ≡ looked_for false self.old }
    {
        self.is_there = false;
    }
}

/// What is done again and again, with times of the monotonic clock in milliseconds.
#[derive(Clone, Copy)]
pub struct Beat {
    /// How long it is not done again.
    pub every: u64,
    /// When it was last done.
    pub last: u64,
}

impl Beat {
    /// Whether it is to be done now; then it was last done now.
    pub fn is_due(&mut self, now: u64) -> bool
        ensures due { result ≡ is_due now self.old }
        ensures noted { self.new ≡ seen now self.old }
    {
        if now.saturating_sub(self.last) < self.every {
            return false;
        }
        self.last = now;
        true
    }
}
