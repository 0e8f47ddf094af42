// How a tenant's door is closed.
ghost use Rattle.std.specs.Prelude.{ℕ, ◌≡◌, IfOk, IfErr, Some};
ghost use Rattle.tenant_record.specs.Cell.{IsRight};
ghost use Rattle.tenant_lock.specs.Closing.{Agree, Closes, IsFault, IsRefused};
ghost use Rattle.tenant_lock.specs.Doors.{AreBegun, door_of};

use super::{Closed, TenantDoor};
use crate::closing::fault_of;
use crate::faults::CloseFault;
use crate::held::Held;
use job_language::TenantConfig;
use std::sync::Wait;
use tenant_book::{Front, Naming};
use tenant_record::{Seat, TenantCell};

impl<J: Naming> TenantDoor<J> {
    /// Closes the door, to which all seats come back: the tenant's history, if it agrees with what the
    /// holders of its tokens were told. At a fault the tenant is given up. What was seen of the tenant's life begins
    /// the history that is given: it is compared.
    pub fn close<R: Wait>(
        self,
        rt: &R,
        fronts: &[Front<J>],
        seats: Vec<Seat>,
    ) -> Result<Closed, CloseFault>
        ensures closed { IfOk result (λ closed. Closes self seats.items closed.history.items) }
        ensures refused { IfErr result (λ fault. IsRefused self seats.items fault) }
        ensures seen { IfOk result (λ closed. AreBegun self.life fronts.now closed.history.items) }
    {
        let TenantDoor {
            tenant,
            config,
            seats: count,
            first,
            held,
            at_slots: _at_slots,
            outcomes: _outcomes,
            jobs: _jobs,
            moving: _moving,
        } = self;
        let held = of_life(rt, held.into_inner(), first.life());
        held.meet_all(rt, fronts);
        let cell = held.into_cell();
        close(cell, seats.as_slice(), tenant, &config, count)
    }
}

/// What a lock kept, which is of that life. It always is: what is of another one is never taken.
fn of_life<J: Naming, R: Wait>(rt: &R, held: Held<J>, life: usize) -> Held<J>
    ensures value { result ≡ held }
    ensures life { result.life ≡ life }
{
    for _ in rt.forever() {
        if held.life() == life {
            return held;
        }
    }
    unreachable!()
}

/// Closes the door of a cell.
fn close(
    cell: TenantCell,
    seats: &[Seat],
    tenant: usize,
    config: &TenantConfig,
    count: usize,
) -> Result<Closed, CloseFault>
    ensures right { IsRight cell }
    ensures agree { (life : ℕ) → IfOk result (λ closed. Agree cell seats.now (door_of life tenant config.now count)) }
    ensures history { IfOk result (λ closed. closed.history.items ≡ cell.history) }
    ensures refused { (life : ℕ) → let door = door_of life tenant config.now count in
        IfErr result (λ fault. IsFault cell seats.now door (Some fault)) }
{
    // Proof hint: the cell is right.
    let _ = cell.history();
    if let Some(fault) = fault_of(&cell, seats, tenant, config, count) {
        return Err(fault);
    }
    let history = cell.into_history();
    Ok(Closed { history })
}
