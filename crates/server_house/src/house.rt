// What all threads of a server share.
ghost use Rattle.std.specs.Prelude.{◌≡◌, ◌≢◌, ◌≤◌, ◌+◌, All, IfOk, Some, false, length, true};
ghost use Rattle.job_language.specs.Configuration.{names_of};
ghost use Rattle.job_language.specs.Tenant.{IsValidTenant};
ghost use Rattle.server_house.specs.Houses.{AreDoorsOf, first_life, first_name, seats_of};
ghost use Rattle.server_house.specs.Shared.{ArePassesOf};
ghost use Rattle.tenant_lock.specs.Doors.{DoorData};
ghost use Rattle.server_doors.specs.Slots.{AreFronts, AreNumbered};

use crate::fresh::FreshSeats;
use crate::starting::open_doors;
use call_queues::{CallQueues, QueuePass};
use job_language::{Config, TenantName};
use market_config::{market_config, names_of};
use std::alloc::{AllocError, Global};
use std::marker::Model;
use std::sync::Wait;
use tenant_book::{Front, Naming, Registry};
use tenant_lock::TenantDoor;
use worker_main::Bell;

/// What all threads of a server share: the doors of all tenants with their names, the queues of
/// calls for workers, and the bell that is rung after each push.
pub struct House<J: Naming> {
    pub(crate) doors: Vec<TenantDoor<J>>,
    pub(crate) names: Vec<TenantName>,
    pub(crate) queues: CallQueues,
    pub(crate) bell: Bell,
}

impl<J: Naming> Drop for House<J> {
    // An owner drops it in one call, not part by part at each of its ways out.
    fn drop(self) {
        let House {
            doors: _doors,
            names: _names,
            queues: _queues,
            bell: _bell,
        } = self;
    }
}

impl<J: Naming> Model for House<J> {
    ghost use Rattle.server_house.specs.Shared.{SharedSeen, IsShared};

    ghost Value = { SharedSeen };

    ghost view = { λ h. record {
      doors = h.doors.items;
      names = h.names.items;
      queues = h.queues;
    } };

    ghost invariant = { λ h. IsShared
        (record { doors = h.doors.items; names = h.names.items; queues = h.queues }) };
}

/// A house with all passes of its queues, one for each worker and each connection, and all seats.
#[derive(Drop)]
pub struct Opened<J: Naming> {
    pub house: House<J>,
    pub passes: Vec<QueuePass>,
    pub seats: FreshSeats,
}

impl<J: Naming> House<J> {
    /// The house of a configuration's tenants, which have done nothing yet, for `connections` connections. Their lives
    /// are entered in the registry.
    pub fn open<R: Wait>(
        rt: &R,
        alloc: Global,
        registry: &Registry<J>,
        config: &Config,
        connections: u8,
    ) -> Result<Opened<J>, AllocError>
        requires { 1 ≤ connections }
        ensures passes { IfOk result
            (λ opened. ArePassesOf opened.house.queues.queues opened.passes.items) }
        ensures count { IfOk result
            (λ opened. length opened.passes.items ≡ config.now.workers + connections) }
        ensures doors { IfOk result
            (λ opened. AreDoorsOf connections config.now.tenants opened.house.doors) }
        ensures names { IfOk result (λ opened. opened.house.names ≡ names_of config.now.tenants) }
        ensures seats { IfOk result
            (λ opened. opened.seats ≡ seats_of connections config.now.tenants) }
    {
        let tenants = config.tenants();
        let names = names_of(alloc, tenants)?;
        let (doors, seats) = open_doors(rt, alloc, registry, tenants, usize::from(connections))?;
        let market = market_config(alloc, config)?;
        let count = config.workers() + usize::from(connections);
        let (queues, passes) = CallQueues::new(alloc, market, count)?;
        let house = House {
            doors,
            names,
            queues,
            bell: Bell::new(),
        };
        Ok(Opened {
            house,
            passes,
            seats: FreshSeats::new(seats),
        })
    }

    /// The tenants' doors, when nothing else of the house is needed.
    pub(crate) fn into_doors(self) -> Vec<TenantDoor<J>>
        ensures value { result.items ≡ self.doors }
        ensures numbers { AreNumbered result.items }
        ensures tenants { All (λ (d : DoorData). IsValidTenant d.config) result.items }
    {
        let House {
            doors,
            names: _names,
            queues: _queues,
            bell: _bell,
        } = self;
        doors
    }

    /// Wakes all that wait for a tenant, each to look whether to go on.
    pub fn wake<R: Wait>(&self, rt: &R) {
        for door in &self.doors {
            door.wake(rt);
        }
    }

    /// The bell that is rung after each call for a worker.
    pub fn bell(&self) -> &Bell {
        &self.bell
    }

    /// The doors of the tenants, in the order of the configuration.
    pub fn doors(&self) -> &[TenantDoor<J>]
        ensures { result.now ≡ self.now.doors }
    {
        self.doors.as_slice()
    }

    /// The number of the first tenant's life, which no other life of the registry has.
    pub fn first_life(&self) -> Option<usize>
        ensures { result ≡ first_life self.now.doors }
    {
        let door = self.doors.first()?;
        Some(door.front().life())
    }

    /// Whether the first tenant has that name.
    pub fn is_of(&self, name: TenantName) -> bool
        ensures own { result ≡ true → first_name self.now.doors ≡ Some name }
        ensures other { result ≡ false → first_name self.now.doors ≢ Some name }
    {
        match self.names.first() {
            Some(own) => own.as_bytes() == name.as_bytes(),
            None => false,
        }
    }

    /// What is known of each tenant's life to a thread that comes: a front of it, with nothing seen.
    pub fn fronts(&self, alloc: Global) -> Result<Vec<Front<J>>, AllocError>
        ensures { IfOk result (λ fronts. AreFronts self.now.doors fronts.items) }
    {
        let mut fronts = Vec::with_capacity(alloc, self.doors.len())?;
        for door in &self.doors {
            fronts.push_reserved(door.front());
        }
        Ok(fronts)
    }

    /// Tells all that wait, for a tenant or for a call, to stop.
    pub fn stop<R: Wait>(&self, rt: &R) {
        for door in &self.doors {
            door.stop(rt);
        }
        self.bell.stop(rt);
    }
}
