// Which term a worker is to come to.
ghost use Rattle.std.specs.Prelude.{◌≡◌, ◌<◌, IfSome, length};
ghost use Rattle.host_terms.specs.Turns.{HasTurn, last_at};

use crate::board::Board;
use crate::terms::HostTerm;
use job_language::Level;
use std::alloc::{AllocError, Global};
use std::sync::Arc;
use tenant_book::Naming;
use term_life::next_turn;

/// The terms of one tenant that workers come to, the oldest first.
#[derive(Drop)]
struct Rota<J: Naming> {
    terms: Vec<Arc<HostTerm<J>>>,
}

impl<J: Naming> Rota<J> {
    /// The first of its terms in which a call of that level waits.
    fn first(&self, level: Level) -> Option<&Arc<HostTerm<J>>> {
        self.terms.iter().find(|term| term.has_call_at(level))
    }

    /// The first of its terms of which a call is held back.
    fn first_held(&self) -> Option<&Arc<HostTerm<J>>> {
        self.terms.iter().find(|term| term.has_held())
    }
}

/// All terms that workers come to, by their tenants, and which tenant of each level had the last turn.
#[derive(Drop)]
pub(crate) struct Roster<J: Naming> {
    entries: Vec<Rota<J>>,
    /// Whether a call of the level that is looked at waits at each tenant.
    waits: Vec<bool>,
    high: usize,
    normal: usize,
    low: usize,
}

impl<J: Naming> Roster<J> {
    pub(crate) fn new(alloc: Global) -> Roster<J> {
        Roster {
            entries: Vec::new(alloc),
            waits: Vec::new(alloc),
            high: 0,
            normal: 0,
            low: 0,
        }
    }

    /// Adds one more tenant, without terms. If an allocation fails, nothing has changed.
    pub(crate) fn add_tenant(&mut self, alloc: Global) -> Result<(), AllocError> {
        self.entries.reserve(1)?;
        self.waits.push(false)?;
        self.entries.push_reserved(Rota {
            terms: Vec::new(alloc),
        });
        Ok(())
    }

    /// Makes room for one more term of the tenant of that number.
    pub(crate) fn make_room(&mut self, tenant: usize) -> Result<(), AllocError> {
        match self.entries.get_mut(tenant) {
            Some(entry) => entry.terms.reserve(1),
            None => Err(AllocError),
        }
    }

    /// Adds a term of the tenant of that number.
    pub(crate) fn add(&mut self, tenant: usize, term: Arc<HostTerm<J>>) -> Result<(), AllocError> {
        match self.entries.get_mut(tenant) {
            Some(entry) => Ok(entry.terms.push(term)?),
            None => Err(AllocError),
        }
    }

    /// Takes out the term of that number of a tenant.
    pub(crate) fn remove(&mut self, tenant: usize, number: u64) {
        if let Some(entry) = self.entries.get_mut(tenant) {
            entry.terms.retain(|term| term.span().number != number);
        }
    }

    /// The term that a worker is to come to next, and the number of its tenant: of the tenants of the highest level at
    /// which a call waits, the one whose turn it is, and its oldest term with such a call, which is claimed. None if no
    /// call waits.
    pub(crate) fn next(&mut self, board: &Board) -> Option<(usize, Arc<HostTerm<J>>)> {
        for level in [Level::High, Level::Normal, Level::Low] {
            if board.has_call_at(level) {
                let next = self.next_at(board, level);
                if next.is_some() {
                    return next;
                }
            }
        }
        None
    }

    /// The same of the tenants of one level.
    fn next_at(&mut self, board: &Board, level: Level) -> Option<(usize, Arc<HostTerm<J>>)>
        ensures { IfSome result (λ next. HasTurn level next.0 self.old self.new) }
    {
        for (waits, entry) in self.waits.iter_mut().zip(&self.entries) {
            *waits = entry.first(level).is_some();
        }
        let last = self.last(level);
        if last >= self.waits.len() {
            return None;
        }
        let tenant = next_turn(self.waits.as_slice(), last)?;
        let term = self.entries.get(tenant)?.first(level)?;
        let term = Arc::try_clone(term).ok()?;
        term.claim(board);
        self.note(level, tenant);
        Some((tenant, term))
    }

    /// Of the tenants from that number on, the first one of which a call is held back, and its oldest term with such a
    /// call.
    pub(crate) fn next_held(&self, from: usize) -> Option<(usize, Arc<HostTerm<J>>)> {
        for (tenant, entry) in self.entries.iter().enumerate().skip(from) {
            if let Some(term) = entry.first_held() {
                return Some((tenant, Arc::try_clone(term).ok()?));
            }
        }
        None
    }

    /// The tenant that had the last turn at a level.
    fn last(&self, level: Level) -> usize
        ensures { result ≡ last_at level self.now }
    {
        match level {
            Level::High => self.high,
            Level::Normal => self.normal,
            Level::Low => self.low,
        }
    }

    fn note(&mut self, level: Level, tenant: usize)
        ensures noted { last_at level self.new ≡ tenant }
        ensures waits { self.new.waits ≡ self.old.waits }
    {
        match level {
            Level::High => self.high = tenant,
            Level::Normal => self.normal = tenant,
            Level::Low => self.low = tenant,
        }
    }
}
