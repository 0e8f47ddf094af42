// The wish for a tenant's next term, and waiting for it.
ghost use Rattle.std.specs.Prelude.{◌≡◌, ◌||◌, false, None};
ghost use Rattle.term_life.specs.Wishes.{asked, awaited, begun, held, is_coming, is_stop, kept_wish, refused, waited};

use crate::terms::Why;

/// Whether a tenant's next term is wished for, and whether it comes.
#[derive(Clone, Copy)]
pub struct Wishes {
    /// Why the term that serves is to be left, or one is to be opened, if it is.
    wish: Option<Why>,
    /// Whether no term can be opened now.
    is_refused: bool,
    /// Whether the next term waits until an older one is closed.
    is_held: bool,
    /// Whether the host stops, and no term is opened any more.
    is_stopped: bool,
}

impl Wishes {
    /// Those of a tenant that has no term yet, for which nobody has asked.
    pub fn new() -> Wishes
        ensures { result ≡ record {
          wish = None;
          is_refused = false;
          is_held = false;
          is_stopped = false;
        } }
    {
        Wishes {
            wish: None,
            is_refused: false,
            is_held: false,
            is_stopped: false,
        }
    }

    /// Asks for the next term, for that reason, unless it was asked for.
    pub fn wish(&mut self, why: Why)
        ensures { self.new ≡ record self.old { wish = kept_wish why self.old.wish } }
    {
        if self.wish.is_none() {
            self.wish = Some(why);
        }
    }

    /// Why the next term is wished for, if it is.
    pub fn wished(&self) -> Option<Why>
        ensures { result ≡ self.now.wish }
    {
        self.wish
    }

    /// No term can be opened now, and the wish for it is forgotten.
    pub fn refuse(&mut self)
        ensures { self.new ≡ refused (record self.old { wish = None }) }
    {
        self.wish = None;
        self.is_refused = true;
    }

    /// No term can be opened now. It stays wished for.
    pub fn put_off(&mut self)
        ensures { self.new ≡ refused self.old }
    {
        self.is_refused = true;
    }

    /// Somebody waits for the next term from now on, whether or not one could be opened before.
    pub fn ask(&mut self)
        ensures { self.new ≡ asked self.old }
    {
        self.is_refused = false;
    }

    /// The next term waits until an older one is closed.
    pub fn hold(&mut self)
        ensures { self.new ≡ held self.old }
    {
        self.is_held = true;
    }

    /// The term that was wished for serves.
    pub fn begin(&mut self)
        ensures { self.new ≡ begun self.old }
    {
        self.wish = None;
        self.is_refused = false;
        self.is_held = false;
    }

    /// The term that serves was left for that reason. If the host stops, there is no next one.
    pub fn leave(&mut self, why: Why)
        ensures { self.new ≡ record self.old { is_stopped = self.old.is_stopped || is_stop why } }
    {
        self.is_stopped |= why == Why::Stop;
    }

    /// Whether the next term may be opened.
    pub fn is_coming(&self) -> bool
        ensures { result ≡ is_coming self.now }
    {
        !self.is_refused && !self.is_stopped
    }
}

/// What becomes of somebody who waits for the next term.
#[derive(Clone, Copy)]
pub enum Awaited {
    /// It serves.
    Came,
    /// It does not come.
    Not,
    /// It may come yet.
    Later,
}

/// Somebody who waits for the next term, and looks for it again and again.
#[derive(Clone, Copy)]
pub struct Waiting {
    /// At how many more looks the term may be one that waits until an older one is closed.
    left: u32,
}

impl Waiting {
    /// Somebody who goes on after so many looks at which the term waits until an older one is closed, and not after one
    /// more.
    pub fn new(looks: u32) -> Waiting
        ensures { result ≡ record { left = looks } }
    {
        Waiting { left: looks }
    }

    /// Looks whether the next term has come, where it serves or not, and whoever waits is to stop or not.
    pub fn look(&mut self, wishes: Wishes, has_come: bool, is_stopping: bool) -> Awaited
        ensures awaited { result ≡ awaited wishes has_come is_stopping self.old }
        ensures waited { self.new ≡ waited wishes self.old }
    {
        let left = self.left;
        if wishes.is_held {
            self.left = left.saturating_sub(1);
        }
        if has_come {
            Awaited::Came
        } else if !wishes.is_coming() || is_stopping || (wishes.is_held && left == 0) {
            Awaited::Not
        } else {
            Awaited::Later
        }
    }
}
