// Sessions that wait for a tenant's next term.

use super::{Lives, Tenancy};
use std::sync::{CondvarTimeouts, MutexGuard, Wait};
use std::time::{Clock, Duration};
use tenant_book::Naming;
use tenant_lock::StopFlag;
use term_life::{Awaited, Waiting, Why};

/// How long a session waits for the next term at most before it looks again, in milliseconds.
const LOOK: u64 = 100;

/// How often it looks while the next term waits until an older one is closed: for 5 seconds.
const LOOKS: u32 = 50;

impl<J: Naming> Lives<J> {
    /// Whether a term serves that is not the one of that number.
    fn has_other(&self, number: Option<u64>) -> bool {
        match self.serving() {
            Some(term) => Some(term.span().number) != number,
            None => false,
        }
    }
}

impl<J: Naming> Tenancy<J> {
    /// Waits until a term serves that is not the one of that number, and says whether one does. It does not if none can
    /// be opened, the flag is raised, or older terms are not closed within some seconds.
    pub fn wait_for_next<R: Wait + Clock>(
        &self,
        rt: &R,
        number: Option<u64>,
        stop: &StopFlag,
    ) -> bool {
        let mut lives = self.lives.lock(rt);
        lives.wishes.ask();
        self.wait(rt, lives, number, stop, LOOKS)
    }

    /// Waits until a term serves that is not the one of that number, unless none can be opened now, older ones are to
    /// be closed before, or the flag is raised.
    pub fn wait_if_one_comes<R: Wait + Clock>(&self, rt: &R, number: u64, stop: &StopFlag) {
        let lives = self.lives.lock(rt);
        let _has_come = self.wait(rt, lives, Some(number), stop, 0);
    }

    /// Waits until a term serves that is not the one of that number, and says whether one does. It gives up after so
    /// many looks at which an older one is still to be closed.
    fn wait<'l, R: Wait + Clock>(
        &'l self,
        rt: &R,
        lives: MutexGuard<'l, Lives<J>>,
        number: Option<u64>,
        stop: &StopFlag,
        looks: u32,
    ) -> bool {
        let mut lives = lives;
        let mut waiting = Waiting::new(looks);
        for _look in rt.forever() {
            let has_come = lives.has_other(number);
            match waiting.look(lives.wishes, has_come, stop.is_raised()) {
                Awaited::Came => return true,
                Awaited::Not => return false,
                Awaited::Later => lives = self.after_a_look(rt, lives),
            }
        }
        false
    }

    /// Asks for the next term, and waits until something has changed, for a moment at most.
    fn after_a_look<'l, R: Wait + Clock>(
        &'l self,
        rt: &R,
        lives: MutexGuard<'l, Lives<J>>,
    ) -> MutexGuard<'l, Lives<J>> {
        let mut lives = lives;
        lives.wishes.wish(Why::History);
        let (lives, _timeout) = self
            .changed
            .wait_timeout(rt, lives, Duration::from_millis(LOOK));
        lives
    }
}
