// One thread's way to call workers.
ghost use Rattle.std.specs.Prelude.{◌≡◌, ◌<◌, length, IfSome};
ghost use Rattle.worker_main.specs.Pushes.{Pushes, PushesDue, Pops};

use crate::signal::Signal;
use call_queues::{CallQueues, QueuePass};
use market_config::Call;
use std::marker::Model;
use std::sync::Wait;

/// One thread's pass of the queues of calls, and what it rings after each push.
#[derive(Drop)]
pub struct Ringer<'q, R: Wait, S: Signal> {
    rt: &'q R,
    signal: &'q S,
    queues: &'q CallQueues,
    pass: QueuePass,
}

impl<'q, R: Wait, S: Signal> Model for Ringer<'q, R, S> {
    ghost use Rattle.std.specs.Prelude.{◌≡◌};
    ghost use Rattle.worker_main.specs.Pushes.{RingerSeen};

    ghost Value = { RingerSeen };

    ghost view = { λ r. record { queues = r.queues.now; pass = r.pass } };

    ghost invariant = { λ r. r.pass.queues ≡ r.queues.now.queues };
}

impl<'q, R: Wait, S: Signal> Ringer<'q, R, S> {
    /// Calls workers by a pass of these queues, and rings that signal.
    pub fn new(rt: &'q R, signal: &'q S, queues: &'q CallQueues, pass: QueuePass) -> Self
        requires { pass.queues ≡ queues.now.queues }
        ensures { result ≡ record { queues = queues.now; pass = pass } }
    {
        Ringer {
            rt,
            signal,
            queues,
            pass,
        }
    }

    /// Pushes a call and rings. The call is lost only if its level was full at one moment, or the
    /// pass had made `u64::MAX` pushes there.
    pub fn call(&mut self, call: Call)
        requires { call.tenant < length self.old.queues.config }
        ensures { Pushes self.old call self.new }
    {
        if let Ok(pushed) = self.queues.push_call(self.rt, &mut self.pass, call) {
            self.signal.ring(self.rt, pushed);
        }
    }

    /// Pushes the call of a slot that became due, and rings.
    pub fn call_due(&mut self, due: Option<Call>)
        requires { IfSome due (λ call. call.tenant < length self.old.queues.config) }
        ensures { PushesDue self.old due self.new }
    {
        if let Some(call) = due {
            self.call(call);
        }
    }

    /// Takes the first call of the highest level that has one.
    pub fn pop(&mut self) -> Option<Call>
        ensures { Pops self.old result self.new }
    {
        self.queues.pop_call(self.rt, &mut self.pass)
    }

    /// Whether a call waits that is of a tenant's level or of a higher one, or the signal awaits its workers elsewhere.
    /// Others push and pop meanwhile.
    pub fn has_call_for(&mut self, tenant: usize) -> bool
        requires { tenant < length self.old.queues.config }
        ensures { self.new ≡ self.old }
    {
        self.signal.is_awaited() || self.queues.has_call_for(&mut self.pass, tenant)
    }

    /// The pass that it was made with.
    pub fn into_pass(self) -> QueuePass
        ensures value { result ≡ self.entry.pass }
        ensures queues { result.queues ≡ self.entry.queues.queues }
    {
        let Ringer { pass, .. } = self;
        pass
    }
}
