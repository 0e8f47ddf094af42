// Pushes of which nobody has to hear.
ghost use Rattle.std.specs.Prelude.{◌≡◌, ◌<◌, length};

use call_queues::{CallQueues, QueuePass};
use market_config::Call;
use std::sync::Wait;

/// Pushes a call, and rings for nobody. A call that comes back was not pushed.
pub(crate) fn push<R: Wait>(
    rt: &R,
    queues: &CallQueues,
    pass: &mut QueuePass,
    call: Call,
) -> Result<(), Call>
    requires pass { pass.old.queues ≡ queues.now.queues }
    requires tenant { call.tenant < length queues.now.config }
    ensures { (pass.new.number ≡ pass.old.number) × (pass.new.queues ≡ pass.old.queues) }
{
    let pushed = queues.push_call(rt, pass, call)?;
    pushed.rung();
    Ok(())
}
