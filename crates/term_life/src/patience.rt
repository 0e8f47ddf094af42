// How long a connection may do nothing.
ghost use Rattle.std.specs.Prelude.{◌≡◌};
ghost use Rattle.term_life.specs.Patiences.{is_over, looked, overdue};

/// How long a connection may do nothing, in milliseconds; 0 stands for any time.
#[derive(Clone, Copy, Debug, PartialEq, Eq)]
pub struct Patience {
    /// How long from its begin until its hello was answered.
    pub hello: u64,
    /// How long from its last reply, or its hello, until its next request.
    pub idle: u64,
}

/// Why the host ends a connection.
#[derive(Clone, Copy, Debug, PartialEq, Eq)]
pub enum Overdue {
    /// It said no hello.
    Hello,
    /// It asked nothing.
    Idle,
}

/// What the host knows of a connection, with times of the monotonic clock in milliseconds.
#[derive(Clone, Copy, Debug, PartialEq, Eq)]
pub struct Seen {
    /// When it began.
    came: u64,
    /// When it was last seen to have asked something.
    active: u64,
    /// How many requests were seen then.
    asked: u64,
}

impl Seen {
    /// A connection that begins now, at a desk that has seen so many requests.
    pub fn new(now: u64, asked: u64) -> Seen
        ensures { result ≡ record { came = now; active = now; asked = asked } }
    {
        Seen {
            came: now,
            active: now,
            asked,
        }
    }

    /// Looks at the connection: so many requests were seen by now.
    pub fn look(&mut self, now: u64, asked: u64)
        ensures { self.new ≡ looked now asked self.old }
    {
        if asked != self.asked {
            self.asked = asked;
            self.active = now;
        }
    }

    /// What the connection has not done in time, whose hello was answered or not.
    pub fn overdue(&self, now: u64, is_bound: bool, patience: Patience) -> Option<Overdue>
        ensures { result ≡ overdue is_bound patience now self.now }
    {
        if is_bound {
            if is_over(patience.idle, self.active, now) {
                Some(Overdue::Idle)
            } else {
                None
            }
        } else {
            if is_over(patience.hello, self.came, now) {
                Some(Overdue::Hello)
            } else {
                None
            }
        }
    }
}

/// Whether that long has passed since then; never if it is 0.
fn is_over(most: u64, since: u64, now: u64) -> bool
    ensures { result ≡ is_over most since now }
{
    most > 0 && now.saturating_sub(since) >= most
}
