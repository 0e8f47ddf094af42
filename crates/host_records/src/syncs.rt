// Whose turn it is to bring a journal to the disk.
ghost use Rattle.std.specs.Prelude.{◌≡◌, ◌&&◌, ◌||◌, false, nat_lt, unwrap_or};

/// How far a journal is on the disk.
#[derive(Clone, Copy)]
pub(crate) struct Synced {
    /// How many entries are there.
    count: usize,
    /// Whether a session brings more there.
    is_syncing: bool,
}

impl Synced {
    /// Nothing is there.
    pub(crate) fn new() -> Synced
        ensures { result ≡ record { count = 0; is_syncing = false } }
    {
        Synced {
            count: 0,
            is_syncing: false,
        }
    }

    /// Whether a session that needs so many entries there has to wait for the one that brings more there.
    pub(crate) fn holds_up(&self, wanted: usize) -> bool
        ensures { result ≡ (self.now.is_syncing && nat_lt self.now.count wanted) }
    {
        self.is_syncing && self.count < wanted
    }

    /// Gives the turn to a session that needs so many entries there, unless they are there, and says whether it does.
    pub(crate) fn take_turn(&mut self, wanted: usize) -> bool
        ensures turn { result ≡ nat_lt self.old.count wanted }
        ensures noted { self.new ≡ record self.old {
          is_syncing = self.old.is_syncing || nat_lt self.old.count wanted;
        } }
    {
        let has_turn = self.count < wanted;
        self.is_syncing |= has_turn;
        has_turn
    }

    /// The turn is over. So many entries are there now; None if that failed.
    pub(crate) fn end_turn(&mut self, there: Option<usize>)
        ensures { self.new ≡ record {
          count = unwrap_or there self.old.count;
          is_syncing = false;
        } }
    {
        self.is_syncing = false;
        self.count = there.unwrap_or(self.count);
    }
}
