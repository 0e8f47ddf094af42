// The start of a server.
ghost use Rattle.std.specs.Prelude.{◌≡◌, ◌++◌, IfOk, OnOk};
ghost use Rattle.server_house.specs.Houses.{AreDoorsOf, seats_of};

use job_language::TenantConfig;
use std::alloc::{AllocError, Global};
use std::sync::Wait;
use tenant_book::{Naming, Registry};
use tenant_lock::TenantDoor;
use tenant_record::Seat;

/// The doors of all tenants, with `seats` seats of each. The seats of tenant 0 come first.
pub(crate) fn open_doors<J: Naming, R: Wait>(
    rt: &R,
    alloc: Global,
    registry: &Registry<J>,
    tenants: &[TenantConfig],
    seats: usize,
) -> Result<(Vec<TenantDoor<J>>, Vec<Seat>), AllocError>
    ensures doors { IfOk result (λ opened. AreDoorsOf seats tenants.now opened.0.items) }
    ensures seats { IfOk result (λ opened. opened.1.items ≡ seats_of seats tenants.now) }
{
    let mut doors = Vec::with_capacity(alloc, tenants.len())?;
    let mut all = Vec::new(alloc);
    for (number, tenant) in tenants.iter().enumerate() {
        let (door, own) = TenantDoor::new(rt, alloc, registry, number, *tenant, seats)?;
        doors.push(door)?;
        add_all(&mut all, own)?;
    }
    Ok((doors, all))
}

fn add_all(all: &mut Vec<Seat>, own: Vec<Seat>) -> Result<(), AllocError>
    ensures { OnOk result (all.new.items ≡ all.old.items ++ own.items) }
{
    for seat in own {
        all.push(seat)?;
    }
    Ok(())
}
