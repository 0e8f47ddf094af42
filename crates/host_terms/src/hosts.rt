// What all threads of a host share.
ghost use Rattle.std.specs.Prelude.{◌≡◌, IfErr, IfOk, IfSome, false};
ghost use Rattle.host_terms.specs.Looks.{IsDone};
ghost use Rattle.host_terms.specs.Names.{admitted_name};
ghost use Rattle.host_terms.specs.Refusals.{IsRefusal};

mod working;

use crate::admissions::Admission;
use crate::board::Board;
use crate::desks::Desk;
use crate::endings::Ending;
use crate::roster::Roster;
use crate::tenancies::Tenancy;
use crate::terms::HostTerm;
use job_language::{Error, TenantName};
use server_io::ServerFault;
use std::alloc::{AllocError, Global};
use std::sync::{Arc, Mutex, Wait};
use tenant_book::{Naming, Registry};
use term_life::Why;

/// What all threads of a host share: its tenants, and the terms that workers come to.
#[derive(Drop)]
pub struct Host<J: Naming> {
    /// By their numbers at the host. A tenant that has no configuration any more stays.
    tenants: Mutex<Vec<Arc<Tenancy<J>>>>,
    roster: Mutex<Roster<J>>,
    board: Board,
    /// The lives of all terms.
    registry: Registry<J>,
    /// At how many per cent of its steps a history takes no new jobs at the latest.
    latest: u32,
    /// How many connections may be bound to one tenant.
    tenant_connections: u32,
}

impl<J: Naming> Host<J> {
    /// A host without a tenant, whose histories end a term at that many per cent of their steps. A term takes no new
    /// jobs once its history has half of the rest as well, if the next one can be opened. So many connections may be
    /// bound to one tenant.
    pub fn new(
        alloc: Global,
        registry: Registry<J>,
        rotate_at: u32,
        tenant_connections: u32,
    ) -> Host<J> {
        Host {
            tenants: Mutex::new(Vec::new(alloc)),
            roster: Mutex::new(Roster::new(alloc)),
            board: Board::new(),
            registry,
            latest: rotate_at.saturating_add(100) / 2,
            tenant_connections,
        }
    }

    /// The lives of all terms.
    pub fn registry(&self) -> &Registry<J> {
        &self.registry
    }

    /// Whether a term is to take no new jobs, if the next one can be opened.
    pub fn is_used<R: Wait>(&self, rt: &R, term: &HostTerm<J>) -> bool {
        term.is_used(rt, self.latest)
    }

    /// Where calls of all terms are noted.
    pub fn board(&self) -> &Board {
        &self.board
    }

    /// Adds one more tenant. If an allocation fails, nothing has changed.
    pub fn add<R: Wait>(
        &self,
        rt: &R,
        alloc: Global,
        tenancy: Arc<Tenancy<J>>,
    ) -> Result<(), AllocError> {
        let mut tenants = self.tenants.lock(rt);
        tenants.reserve(1)?;
        self.roster.lock(rt).add_tenant(alloc)?;
        tenants.push_reserved(tenancy);
        Ok(())
    }

    /// The number of the tenant of a name, if it is known.
    pub fn find<R: Wait>(&self, rt: &R, name: TenantName) -> Option<usize> {
        self.tenants
            .lock(rt)
            .iter()
            .position(|known| known.name().as_bytes() == name.as_bytes())
    }

    /// The tenant of that number.
    pub fn tenancy<R: Wait>(&self, rt: &R, tenant: usize) -> Option<Arc<Tenancy<J>>> {
        let tenants = self.tenants.lock(rt);
        Arc::try_clone(tenants.get(tenant)?).ok()
    }

    /// A place for one more connection at the tenant of that number, which has that name. An error if it has as many
    /// connections as it may.
    pub fn admit<R: Wait>(
        &self,
        rt: &R,
        tenant: usize,
        name: TenantName,
    ) -> Result<Admission<J>, Error>
        ensures name { IfOk result (λ a. admitted_name a ≡ name) }
        ensures refused { IfErr result IsRefusal }
    {
        let Some(tenancy) = self.tenancy(rt, tenant) else {
            // It is there, and too many handles on it are never out.
            return Err(Error::NoMemory);
        };
        // A number stays that of one tenant. This way nobody has to believe it.
        if tenancy.name().as_bytes() != name.as_bytes() {
            return Err(Error::NoMemory);
        }
        let most = u64::from(self.tenant_connections);
        Admission::of(tenancy, most).ok_or(Error::ConnectionLimit)
    }

    /// How many tenants there are.
    pub fn count<R: Wait>(&self, rt: &R) -> usize {
        self.tenants.lock(rt).len()
    }

    /// Lets a term of a tenant serve, as `Tenancy::begin` says.
    pub fn begin<R: Wait>(
        &self,
        rt: &R,
        alloc: Global,
        tenant: usize,
        term: HostTerm<J>,
        why: Why,
    ) -> Result<(), ServerFault> {
        let Some(tenancy) = self.tenancy(rt, tenant) else {
            return Err(ServerFault::Device);
        };
        let term = shared(alloc, term)?;
        tenancy.begin(rt, &self.roster, tenant, term, why)
    }

    /// Takes out a term of a tenant that is to be closed, if there is one, as `Tenancy::next_ending` says.
    pub fn next_ending<R: Wait>(
        &self,
        rt: &R,
        alloc: Global,
        tenant: usize,
        desks: &[Desk<J>],
        is_forced: bool,
    ) -> Result<Option<Ending<J>>, AllocError>
        ensures { IfOk result (λ found. IfSome found (λ ending.
            is_forced ≡ false → IsDone ending.term ending.config)) }
    {
        let Some(tenancy) = self.tenancy(rt, tenant) else {
            return Ok(None);
        };
        tenancy.next_ending(rt, alloc, &self.roster, tenant, desks, is_forced)
    }

    /// Brings the histories of all terms to their journals, and these to the disk if they are to be synced. Without
    /// memory for handles it is done the next time.
    pub fn catch_up<R: Wait>(&self, rt: &R, alloc: Global, syncs: bool) {
        for tenant in 0..self.count(rt) {
            let live = match self.tenancy(rt, tenant) {
                Some(tenancy) => tenancy.live(rt, alloc).ok(),
                None => None,
            };
            for term in live.unwrap_or(Vec::new(alloc)) {
                // One that fails is seen by who looks after terms.
                let _is_there = term.catch_up(rt, alloc, syncs);
            }
        }
    }

    /// Wakes all that wait in a term, each to look whether to go on.
    pub fn wake<R: Wait>(&self, rt: &R) {
        for tenant in 0..self.count(rt) {
            if let Some(tenancy) = self.tenancy(rt, tenant) {
                tenancy.wake(rt);
            }
        }
    }

    /// Tells all that wait in a term to stop.
    pub fn stop_waits<R: Wait>(&self, rt: &R) {
        for tenant in 0..self.count(rt) {
            if let Some(tenancy) = self.tenancy(rt, tenant) {
                tenancy.stop(rt);
            }
        }
    }

    /// Tells the workers to stop.
    pub fn stop_workers<R: Wait>(&self, rt: &R) {
        self.board.bell().stop(rt);
    }
}

fn shared<J: Naming>(alloc: Global, term: HostTerm<J>) -> Result<Arc<HostTerm<J>>, AllocError> {
    Ok(Arc::new(alloc, term)?)
}
