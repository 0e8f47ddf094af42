// A worker of a host.

use super::Host;
use crate::board::Board;
use crate::crowd::micros;
use crate::places::Place;
use crate::terms::HostTerm;
use std::sync::Wait;
use std::time::{Clock, Duration};
use tenant_book::Naming;
use term_life::STRETCH;
use worker_main::Signal;

impl<J: Naming> Host<J> {
    /// Serves calls of all terms, as the worker of that place, until workers are told to stop. A call of a term at
    /// which more workers would only be in each other's way is held back, and looked at from time to time.
    pub fn work<R: Wait + Clock>(&self, rt: &R, place: &Place) {
        for _turn in rt.forever() {
            let Some(heard) = self.board.bell().listen(rt) else {
                return;
            };
            if self.board.has_held() && self.board.is_to_look(micros(rt)) {
                self.look_at_held(rt);
            }
            let next = self.roster.lock(rt).next(&self.board);
            match next {
                Some((tenant, term)) => self.come(rt, tenant, &term, place),
                None => {
                    place.leave();
                    self.rest(rt, heard);
                }
            }
        }
    }

    /// Serves the call of a term that was claimed, or holds it back.
    fn come<R: Wait + Clock>(&self, rt: &R, tenant: usize, term: &HostTerm<J>, place: &Place) {
        if !term.admits(rt, &self.board) {
            return;
        }
        if self.board.lacks_watch() {
            self.board.bell().nudge(rt);
        }
        term.serve(rt, &self.board, tenant, place);
    }

    /// Waits for a call. One worker looks meanwhile at those that are held back.
    fn rest<R: Wait + Clock>(&self, rt: &R, heard: u64) {
        if self.board.begin_watch() {
            let most = Duration::from_micros(STRETCH);
            self.board.bell().wait_past_for(rt, heard, most);
            self.board.end_watch();
        } else {
            self.board.bell().wait_past(rt, heard);
        }
    }

    /// Lets workers come for calls that were held back, where they are to come by now: one of each tenant.
    fn look_at_held<R: Wait + Clock>(&self, rt: &R) {
        let mut from = 0;
        for _tenant in rt.forever() {
            let Some((tenant, term)) = self.roster.lock(rt).next_held(from) else {
                return;
            };
            term.look_at_held(rt, &self.board);
            from = tenant.saturating_add(1);
        }
    }
}
