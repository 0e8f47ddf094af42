// Which of a term's calls are answered at once.

use super::HostTerm;
use crate::board::Board;
use std::sync::Wait;
use std::time::Clock;
use tenant_book::Naming;

impl<J: Naming> HostTerm<J> {
    /// Whether the worker that has claimed one of its calls is to serve it. If not, the call is held back.
    pub(crate) fn admits<R: Wait + Clock>(&self, rt: &R, board: &Board) -> bool {
        let Some(door) = self.door() else {
            return true;
        };
        if self.crowd.take_grant(rt) {
            return true;
        }
        if !self.calls.is_held() {
            self.crowd.forget(rt);
        }
        let comes = self.crowd.admits(rt, door);
        if !comes {
            self.calls.hold(board);
        }
        comes
    }

    /// Lets workers come for its calls that are held back, if one is to come by now: for all of them, since threads
    /// that are in each other's way leave again.
    pub(crate) fn look_at_held<R: Wait + Clock>(&self, rt: &R, board: &Board) {
        let Some(door) = self.door() else {
            return;
        };
        if self.crowd.admits(rt, door) {
            let count = self.calls.release(board);
            self.crowd.grant(rt, u64::try_from(count).unwrap_or(0));
            for _call in 0..count {
                board.bell().nudge(rt);
            }
        }
    }

    /// Whether a call of it is held back.
    pub(crate) fn has_held(&self) -> bool {
        self.calls.is_held()
    }
}
