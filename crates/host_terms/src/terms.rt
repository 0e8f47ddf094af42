// A term of a tenant: a house of this tenant alone, and the places of all threads in it.
ghost use Rattle.std.specs.Prelude.{◌≡◌, ◌≢◌, ◌≤◌, ◌⊎◌, [], ◌∷◌, IfErr, IfOk, Some, false, option_map, true};
ghost use Rattle.server_io.specs.declared.ends.ServerFault.TheVariants as end;
ghost use Rattle.std.specs.Arc.{arc_value};
ghost use Rattle.server_house.specs.Houses.{first_life};
ghost use Rattle.host_terms.specs.Bookings.{IsAt, IsOf, seen_of};

mod bookings;
mod crowding;
mod looks;

use crate::board::{Board, Calls, TermSignal};
use crate::crowd::Crowd;
use crate::places::{Place, TermGate};
pub use bookings::Booking;
use host_records::{Journal, Kept, bring_to_journal};
use job_language::{Config, Level, TenantConfig, TenantName};
use server_house::{ClientSeats, House, Lodging, OwnClient, OwnPost};
use server_io::ServerFault;
use std::alloc::{AllocError, Global};
use std::sync::atomic::{AtomicBool, Ordering};
use std::sync::{Arc, Mutex, Wait};
use tenant_book::{Naming, Registry};
use tenant_lock::{CloseFault, Closed, TenantDoor};
use term_life::Span;
use worker_main::Visiting;

/// A term that is not closed.
pub struct HostTerm<J: Naming> {
    span: Span,
    tenant: TenantConfig,
    /// When it was opened, in seconds since 1970.
    began: u64,
    house: Arc<House<J>>,
    /// Its tenant's history in a file, unless that is to end with the host.
    journal: Option<Journal>,
    calls: Calls,
    crowd: Crowd,
    /// Whether it takes no new jobs.
    is_left: AtomicBool,
    /// The posts of workers that are not there, and how many posts there are in all.
    posts: Mutex<Vec<OwnPost<J>>>,
    workers: usize,
    /// The places of sessions that are not there, and how many places there are in all.
    clients: Mutex<Vec<OwnClient<J>>>,
    sessions: usize,
}

impl<J: Naming> Drop for HostTerm<J> {
    // An owner drops it in one call, not part by part at each of its ways out.
    fn drop(self) {
        let HostTerm {
            span: _span,
            tenant: _tenant,
            began: _began,
            house: _house,
            journal: _journal,
            calls: _calls,
            crowd: _crowd,
            is_left: _is_left,
            posts: _posts,
            workers: _workers,
            clients: _clients,
            sessions: _sessions,
        } = self;
    }
}

/// The configuration of one tenant and so many workers. `Config` if they make none, and `Memory` if an allocation
/// fails.
fn config_of_one(alloc: Global, tenant: TenantConfig, workers: usize) -> Result<Config, ServerFault>
    ensures tenant { IfOk result (λ config. config.tenants ≡ tenant ∷ []) }
    ensures workers { IfOk result (λ config. config.workers ≡ workers) }
    ensures fault { IfErr result (λ fault. (fault ≡ end.Config) ⊎ (fault ≡ end.Memory)) }
{
    let mut tenants = Vec::with_capacity(alloc, 1)?;
    tenants.push_reserved(tenant);
    match Config::new(tenants, workers) {
        Some(config) => Ok(config),
        None => Err(ServerFault::Config),
    }
}

impl<J: Naming> HostTerm<J> {
    /// A term that has done nothing yet, for so many workers and sessions. `Config` if the tenant can't be served by so
    /// many workers, `Device` if a place is missing, and `Memory` if an allocation fails.
    pub fn open<R: Wait>(
        rt: &R,
        alloc: Global,
        registry: &Registry<J>,
        span: Span,
        tenant: TenantConfig,
        began: u64,
        workers: usize,
        sessions: u8,
        journal: Option<Journal>,
    ) -> Result<HostTerm<J>, ServerFault>
        requires { 1 ≤ sessions }
        ensures { IfOk result (λ t. (t.span ≡ span) × (t.tenant ≡ tenant) × (t.began ≡ began)) }
    {
        let config = config_of_one(alloc, tenant, workers)?;
        let Some(lodging) = Lodging::open(rt, alloc, registry, &config, sessions)? else {
            return Err(ServerFault::Device);
        };
        let Lodging {
            house,
            posts,
            clients,
        } = lodging;
        let (workers, sessions) = (posts.len(), clients.len());
        Ok(HostTerm {
            span,
            tenant,
            began,
            house,
            journal,
            calls: Calls::new(tenant.tenant().priority),
            crowd: Crowd::new(),
            is_left: AtomicBool::new(false),
            posts: Mutex::new(posts),
            workers,
            clients: Mutex::new(clients),
            sessions,
        })
    }

    /// Which term it is, and the numbers of its jobs.
    pub fn span(&self) -> Span
        ensures { result ≡ self.now.span }
    {
        self.span
    }

    /// Whether it is a term of the tenant of that name.
    pub fn is_of(&self, name: TenantName) -> bool
        ensures own { result ≡ true → IsOf name (seen_of self.now) }
        ensures other { result ≡ false → (seen_of self.now).name ≢ Some name }
    {
        self.house.is_of(name)
    }

    /// Whether a client asks its tenant, in the life that this has here, and that has that name.
    fn is_home_of(&self, client: &OwnClient<J>, name: TenantName) -> bool
        ensures at { result ≡ true → IsAt (seen_of self.now) client.now }
        ensures name { result ≡ true → IsOf name (seen_of self.now) }
        ensures home { IsAt (seen_of self.now) client.now → IsOf name (seen_of self.now)
            → result ≡ true }
    {
        client.life() == self.house.first_life() && client.is_of(name) && self.is_of(name)
    }

    /// What its tenant is given.
    pub fn tenant(&self) -> &TenantConfig
        ensures { result.now ≡ self.now.tenant }
    {
        &self.tenant
    }

    /// When it was opened, in seconds since 1970.
    pub fn began(&self) -> u64
        ensures { result ≡ self.now.began }
    {
        self.began
    }

    /// The door of its tenant.
    pub fn door(&self) -> Option<&TenantDoor<J>>
        ensures { option_map (λ door. door.now.life) result
            ≡ first_life (arc_value self.now.house).doors }
    {
        self.house.doors().first()
    }

    /// Whether it takes no new jobs.
    pub fn is_left(&self) -> bool {
        self.is_left.load(Ordering::SeqCst)
    }

    /// Lets it take no new jobs.
    pub(crate) fn leave(&self) {
        self.is_left.store(true, Ordering::SeqCst);
    }

    /// Whether a call of that level waits in it.
    pub(crate) fn has_call_at(&self, level: Level) -> bool {
        self.calls.level() == level && self.calls.is_any()
    }

    /// Claims one of its calls.
    pub(crate) fn claim(&self, board: &Board) {
        self.calls.claim(board);
    }

    /// Serves the call that was claimed, for the tenant of that number, as the worker of that place.
    pub(crate) fn serve<R: Wait>(&self, rt: &R, board: &Board, tenant: usize, place: &Place) {
        let post = self.posts.lock(rt).pop();
        let Some(post) = post else {
            return;
        };
        let signal = TermSignal {
            board,
            calls: &self.calls,
            crowd: &self.crowd,
        };
        let gate = TermGate { place, tenant };
        self.crowd.enter();
        let (post, _is_called) = post.serve_call(rt, &signal, &gate, Visiting::Sharing);
        self.crowd.leave();
        // There is room for it: it was there before.
        let _kept = self.posts.lock(rt).push(post);
    }

    /// Brings to its journal, if it has one, what its tenant was asked. None if that fails.
    pub(crate) fn kept<R: Wait>(&self, rt: &R, alloc: Global) -> Option<Kept> {
        bring_to_journal(rt, alloc, self.journal.as_ref(), self.door())
    }

    /// Brings all of its history to its journal, and that to the disk if it is to be synced. It says whether all of it
    /// is there. If an allocation fails, it can be done again.
    pub(crate) fn catch_up<R: Wait>(
        &self,
        rt: &R,
        alloc: Global,
        syncs: bool,
    ) -> Result<bool, AllocError> {
        match (&self.journal, self.door()) {
            (Some(journal), Some(door)) => journal.catch_up(rt, alloc, door, syncs),
            _ => Ok(false),
        }
    }

    /// Room for the seats of its sessions.
    pub(crate) fn room_for_seats(&self, alloc: Global) -> Result<ClientSeats, AllocError> {
        // It has one tenant, so each session has one seat.
        ClientSeats::with_room(alloc, self.sessions)
    }

    /// Whether its journal failed, so that nothing that it is asked can be acknowledged.
    pub fn is_broken(&self) -> bool {
        match &self.journal {
            Some(journal) => journal.is_broken(),
            None => false,
        }
    }

    /// Whether no session is there.
    pub(crate) fn is_free_of_sessions<R: Wait>(&self, rt: &R) -> bool {
        self.clients.lock(rt).len() == self.sessions
    }

    /// Whether no worker is there.
    pub(crate) fn is_free_of_workers<R: Wait>(&self, rt: &R) -> bool {
        self.posts.lock(rt).len() == self.workers
    }

    /// Wakes all that wait in it, each to look whether to go on.
    pub(crate) fn wake<R: Wait>(&self, rt: &R) {
        self.house.wake(rt);
    }

    /// Tells all that wait in it to stop.
    pub(crate) fn stop<R: Wait>(&self, rt: &R) {
        self.house.stop(rt);
    }

    /// Closes it, once nobody is there: its tenant's history, or what is wrong. Its calls leave the board. The seats of
    /// its sessions are put where there is room for them. None if somebody still is there.
    pub(crate) fn close<R: Wait>(
        self,
        rt: &R,
        alloc: Global,
        board: &Board,
        room: ClientSeats,
    ) -> Option<Result<Closed, CloseFault>> {
        let HostTerm {
            span: _span,
            tenant: _tenant,
            began: _began,
            house,
            journal,
            calls,
            crowd: _crowd,
            is_left: _is_left,
            posts,
            workers: _workers,
            clients,
            sessions: _sessions,
        } = self;
        calls.withdraw(board);
        drop(journal);
        drop(posts);
        let mut seats = room;
        for client in clients.into_inner() {
            // If they were lost, the close would find that they are missing.
            let _added = seats.add(client);
        }
        let house = Arc::try_unwrap(house).ok()?;
        seats.close_only(rt, alloc, house)
    }
}
