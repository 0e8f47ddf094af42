// Finishing a tenant's jobs.
ghost use Rattle.tenant_finish.specs.Recovered.{IsFinishedTenant};

use job_finish::{finish, quiet_tenants_are_done};
use serial_law::serial_values;
use tenant_record::Replay;

/// Lets a tenant's jobs go on until each has an outcome, or the history is full. Nothing is asked. In
/// a tenant without slots for workers, rows that no slot takes stay as they are.
pub fn finish_tenant(replay: &mut Replay)
    ensures { IsFinishedTenant replay.old replay.new }
{
    // Proof hint: the tenant is valid.
    let _ = replay.config();
    serial_values();
    quiet_tenants_are_done();
    finish(replay);
    // Proof hint: the history is right.
    let _ = replay.history();
}
