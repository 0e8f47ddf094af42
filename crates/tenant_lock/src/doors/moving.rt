// How a slot is moved at a tenant's door, looked at after it, and left.
ghost use Rattle.std.specs.Prelude.{◌≡◌, ◌≤◌, IfSome};
ghost use Rattle.std.specs.Option.{is_some};
ghost use Rattle.std.specs.Sync.Mutex.{mutex_guard_value};
ghost use Rattle.tenant_model.specs.declared.rows.TheConstants.{MAX_HEIGHT};
ghost use Rattle.arena_core.specs.Views.{IsSeen};
ghost use Rattle.tenant_record.specs.Cell.{state_of};
ghost use Rattle.tenant_lock.specs.Doors.{ComesBack, IsFrontOf};
ghost use Rattle.tenant_lock.specs.Under.{AndCounted, AndLooked, IsAdvanceOf, IsCommitOf, IsGivenHome, IsHandOverOf, IsHigh, WasThere, WasUnder};
ghost use Rattle.tenant_lock.specs.Sleepers.{MayLeave};

use super::TenantDoor;
use crate::held::{Held, MovedAndSeen};
use job_step::{Segment, View};
use std::sync::{MutexGuard, Wait};
use std::thread::yield_now;
use tenant_book::{Front, Naming};
use tenant_record::{Advanced, Pass};

impl<J: Naming> TenantDoor<J> {
    /// Advances the slot of a pass. The pass comes back, unless it went home.
    pub fn advance<R: Wait>(&self, rt: &R, me: &mut Front<J>, pass: Pass) -> Advanced
        requires front { IsFrontOf self.now me.old }
        requires pass { pass.tenant ≡ self.now.tenant }
        ensures front { IsFrontOf self.now me.new }
        ensures back { ComesBack pass result.moved result.pass }
        ensures cell { WasUnder self.now.tenant me.old me.new (IsAdvanceOf pass result) }
    {
        let done = self.lock(rt).advance(rt, me, pass);
        self.tell(done)
    }

    /// Puts a private run in the place of an advance of the slot of a pass. It is `Stale` if its frame
    /// is no longer the slot's topmost one. The pass comes back, unless it went home.
    pub fn commit<R: Wait>(
        &self,
        rt: &R,
        me: &mut Front<J>,
        pass: Pass,
        segment: Segment,
    ) -> Advanced
        requires front { IsFrontOf self.now me.old }
        requires pass { pass.tenant ≡ self.now.tenant }
        ensures front { IsFrontOf self.now me.new }
        ensures back { ComesBack pass result.moved result.pass }
        ensures cell { WasUnder self.now.tenant me.old me.new (IsCommitOf pass segment result) }
    {
        let done = self.lock(rt).commit(rt, me, pass, segment);
        self.tell(done)
    }

    /// Advances the slot of a pass as `advance`, and under the same lock looks at the slot: the view is
    /// that after it, or `Unshared` if no other pass of the tenant is out.
    pub fn advance_and_look<R: Wait>(
        &self,
        rt: &R,
        me: &mut Front<J>,
        pass: Pass,
        view: &mut View,
    ) -> MovedAndSeen
        requires front { IsFrontOf self.now me.old }
        requires pass { pass.tenant ≡ self.now.tenant }
        ensures front { IsFrontOf self.now me.new }
        ensures back { ComesBack pass result.advanced.moved result.advanced.pass }
        ensures cell { WasUnder self.now.tenant me.old me.new (IsAdvanceOf pass result.advanced) }
        ensures seen { WasUnder self.now.tenant me.old me.new
            (AndLooked result view.new (IsAdvanceOf pass result.advanced)) }
        ensures look { is_some result.height ≡ is_some result.advanced.pass }
        ensures most { IfSome result.height (λ height. height ≤ MAX_HEIGHT) }
    {
        let done = self.lock(rt).advance_and_look(rt, me, pass, view);
        self.tell(done)
    }

    /// Advances the slot of a pass as `advance`, and under the same lock counts the rows on it.
    pub fn advance_and_count<R: Wait>(&self, rt: &R, me: &mut Front<J>, pass: Pass) -> MovedAndSeen
        requires front { IsFrontOf self.now me.old }
        requires pass { pass.tenant ≡ self.now.tenant }
        ensures front { IsFrontOf self.now me.new }
        ensures back { ComesBack pass result.advanced.moved result.advanced.pass }
        ensures cell { WasUnder self.now.tenant me.old me.new (IsAdvanceOf pass result.advanced) }
        ensures counted { WasUnder self.now.tenant me.old me.new
            (AndCounted result (IsAdvanceOf pass result.advanced)) }
        ensures count { is_some result.height ≡ is_some result.advanced.pass }
        ensures most { IfSome result.height (λ height. height ≤ MAX_HEIGHT) }
    {
        let done = self.lock(rt).advance_and_count(rt, me, pass);
        self.tell(done)
    }

    /// Puts a private run in the place of an advance as `commit`, and under the same lock looks at the
    /// slot as `advance_and_look`.
    pub fn commit_and_look<R: Wait>(
        &self,
        rt: &R,
        me: &mut Front<J>,
        pass: Pass,
        segment: Segment,
        view: &mut View,
    ) -> MovedAndSeen
        requires front { IsFrontOf self.now me.old }
        requires pass { pass.tenant ≡ self.now.tenant }
        ensures front { IsFrontOf self.now me.new }
        ensures back { ComesBack pass result.advanced.moved result.advanced.pass }
        ensures cell { WasUnder self.now.tenant me.old me.new (IsCommitOf pass segment result.advanced) }
        ensures seen { WasUnder self.now.tenant me.old me.new
            (AndLooked result view.new (IsCommitOf pass segment result.advanced)) }
        ensures look { is_some result.height ≡ is_some result.advanced.pass }
        ensures most { IfSome result.height (λ height. height ≤ MAX_HEIGHT) }
    {
        let done = self.lock(rt).commit_and_look(rt, me, pass, segment, view);
        self.tell(done)
    }

    /// What is seen of a pass's slot: its topmost frame, if another handle on the frame's program is
    /// granted.
    pub fn view<R: Wait>(&self, rt: &R, me: &mut Front<J>, pass: &Pass) -> View
        requires front { IsFrontOf self.now me.old }
        requires pass { pass.now.tenant ≡ self.now.tenant }
        ensures front { IsFrontOf self.now me.new }
        ensures cell { WasThere self.now.tenant me.old me.new (λ c. IsSeen (state_of c) pass.now.slot result) }
    {
        let held = self.lock(rt);
        held.show_all(rt, me);
        held.cell().view(pass)
    }

    /// How many rows are on a pass's slot.
    pub fn height<R: Wait>(&self, rt: &R, me: &mut Front<J>, pass: &Pass) -> usize
        requires front { IsFrontOf self.now me.old }
        requires pass { pass.now.tenant ≡ self.now.tenant }
        ensures front { IsFrontOf self.now me.new }
        ensures cell { WasThere self.now.tenant me.old me.new (IsHigh pass.now result) }
        ensures most { result ≤ MAX_HEIGHT }
    {
        let held = self.lock(rt);
        held.show_all(rt, me);
        held.cell().height(pass)
    }

    /// Lets another slot go on first that is moved without long private runs, as that of the pass is, for some tenths of
    /// a millisecond at most. Threads that take the lock entry by entry, by turns, take twice as long for each as one
    /// that goes on by itself.
    pub fn give_way(&self, pass: &Pass) {
        self.moving.move_again(pass.slot());
    }

    /// Puts a pass home. A slot with rows on it is not left to itself: until they are gone, those who wait
    /// for the tenant were told to stop, or its history is full, the call does not return.
    pub fn give_home<R: Wait>(&self, rt: &R, me: &mut Front<J>, pass: Pass)
        requires front { IsFrontOf self.now me.old }
        requires pass { pass.tenant ≡ self.now.tenant }
        ensures front { IsFrontOf self.now me.new }
        ensures cell { WasUnder self.now.tenant me.old me.new (IsGivenHome pass) }
    {
        self.lock_to_leave(rt, &pass).give_home(rt, me, pass);
    }

    /// Puts a pass home as `give_home`, and under the same lock calls a worker to the lowest slot for
    /// workers whose pass is home with nobody called, if a row waits. That slot is given, and who asks for
    /// it has to call the worker. It is no entry, so nobody is woken.
    pub fn hand_over<R: Wait>(&self, rt: &R, me: &mut Front<J>, pass: Pass) -> Option<u8>
        requires front { IsFrontOf self.now me.old }
        requires pass { pass.tenant ≡ self.now.tenant }
        ensures front { IsFrontOf self.now me.new }
        ensures cell { WasUnder self.now.tenant me.old me.new (IsHandOverOf pass result) }
    {
        self.lock_to_leave(rt, &pass).hand_over(rt, me, pass)
    }

    /// Takes the lock when the slot of a pass may be left. Who moved the slot until it was empty, or until a
    /// pause said to stop, takes it at once.
    fn lock_to_leave<R: Wait>(&self, rt: &R, pass: &Pass) -> MutexGuard<'_, Held<J>>
        ensures own { (mutex_guard_value result).cell.tenant ≡ self.now.tenant }
        ensures life { (mutex_guard_value result).life ≡ self.now.life }
        ensures may { MayLeave (mutex_guard_value result) pass.now }
    {
        for _ in rt.forever() {
            let held = self.lock(rt);
            if held.may_leave(pass) {
                return held;
            }
            drop(held);
            yield_now();
        }
        unreachable!()
    }
}
