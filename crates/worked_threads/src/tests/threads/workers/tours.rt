// Doors in memory whose answers are given by a table.
ghost use Rattle.std.specs.Prelude.{◌≡◌, ◌<◌, ◌≤◌, IfOk, IfSome, length};

use job_language::{Came, Instr, Level, Moved, Proc, Program, Register};
use job_step::{Frame, Segment, Top, View};
use market_config::{Call, MarketConfig, MarketTenant};
use nested_wait::MAX_HEIGHT;
use std::alloc::{AllocError, Global};
use std::cell::Cell;
use std::sync::Wait;
use std::test::Fail;
use worker_main::{Bell, SlotAccess, WorkerAccess};

/// How high the slot is before a turn, what the turn is answered, and which slot it makes due.
pub(super) type Row = (usize, Moved, Option<u8>);

/// Slots of one tenant that go through the rows of a table. An arrival finds a row unless the table
/// is at its end. After some calls were served the bell tells to stop.
#[derive(Drop)]
pub(super) struct Tour<'t, R> {
    pub rt: &'t R,
    pub bell: &'t Bell,
    pub program: Program,
    pub rows: &'t [Row],
    pub place: usize,
    /// The slot that it leads to.
    pub at: Option<u8>,
    /// How many calls are served until the bell tells to stop.
    pub calls: u32,
    /// How many commits were made.
    pub commits: &'t Cell<u32>,
    pub advances: u32,
    pub pauses: u32,
    pub homes: u32,
}

impl<'t, R: Wait> Tour<'t, R> {
    pub(super) fn new(
        program: Program,
        rt: &'t R,
        bell: &'t Bell,
        commits: &'t Cell<u32>,
        rows: &'t [Row],
        calls: u32,
    ) -> Self {
        Tour {
            rt,
            bell,
            program,
            rows,
            place: 0,
            at: None,
            calls,
            commits,
            advances: 0,
            pauses: 0,
            homes: 0,
        }
    }

    fn answer(&mut self) -> (Moved, Option<Call>)
        ensures { IfSome result.1 (λ call. call.tenant ≡ 0) }
    {
        let (_, moved, due) = self
            .rows
            .get(self.place)
            .copied()
            .unwrap_or((0, Moved::Idle, None));
        self.place = self.place.wrapping_add(1);
        if moved == Moved::Left {
            self.leave();
        }
        (moved, due_of(due))
    }

    /// Ends a visit.
    fn leave(&mut self) {
        self.at = None;
        self.end_call();
    }

    /// Counts a call that was served, and tells to stop after the last.
    fn end_call(&mut self) {
        self.calls = self.calls.saturating_sub(1);
        if self.calls == 0 {
            self.bell.stop(self.rt);
        }
    }
}

/// The call of a slot of the first tenant.
pub(super) fn due_of(slot: Option<u8>) -> Option<Call>
    ensures { IfSome result (λ call. call.tenant ≡ 0) }
{
    match slot {
        Some(slot) => Some(Call { tenant: 0, slot }),
        None => None,
    }
}

/// A program that sets register 0 to the slot and returns.
pub(super) fn returns_its_slot(alloc: Global) -> Result<Program, Fail> {
    let a = Register::new(0).ok_or("a register")?;
    let instrs = vec![in alloc; Instr::Slot(a), Instr::Ret(a)]?;
    let procs = vec![in alloc; Proc::new(instrs)]?;
    Ok(Program::new(alloc, procs)?)
}

/// The topmost frame of a slot of four, or none that can be shared.
pub(super) fn frame_of(program: &Program, slot: u8) -> View {
    match program.try_clone() {
        Ok(program) => View::Top(Top {
            program,
            frame: Frame::new(0, 7, 9),
            slot,
            width: 4,
        }),
        Err(_) => View::Unshared,
    }
}

/// One tenant, with 16 slots for workers.
pub(super) fn one_tenant(alloc: Global) -> Result<MarketConfig, AllocError>
    ensures { IfOk result (λ c. length c ≡ 1) }
{
    let tenant = MarketTenant {
        level: Level::Normal,
        slots: 16,
        reserved: 0,
    };
    Ok(MarketConfig::new(vec![in alloc; tenant]?))
}

impl<R: Wait> SlotAccess for Tour<'_, R> {
    ghost use Rattle.std.specs.Prelude.{option_map};

    ghost tenants = { λ _. 1 };

    ghost at_tenant = { λ s. option_map (λ _. 0) s.at };

    ghost views = { λ _ _. Unit {0} };

    ghost commits = { λ _ _ _ _ _. Unit {0} };

    ghost advances = { λ _ _ _ _. Unit {0} };

    ghost heights = { λ _ _. Unit {0} };

    ghost pauses = { λ _ _ _. Unit {0} };

    ghost homes = { λ _ _. Unit {0} };

    ghost hands = { λ _ _ _. Unit {0} };

    fn tenant(&self) -> Option<usize> {
        self.at.map(|_| 0)
    }

    fn view(&self) -> View {
        match self.at {
            Some(slot) if self.height() > 0 => frame_of(&self.program, slot),
            _ => View::Bare,
        }
    }

    fn commit(&mut self, _segment: Segment) -> (Moved, Option<Call>) {
        self.commits.set(self.commits.get().wrapping_add(1));
        self.answer()
    }

    fn advance(&mut self) -> (Moved, Option<Call>) {
        self.advances = self.advances.wrapping_add(1);
        self.answer()
    }

    fn height(&self) -> usize {
        let height = self.rows.get(self.place).map_or(0, |row| row.0);
        height.min(MAX_HEIGHT)
    }

    fn pause(&mut self) -> bool {
        self.pauses = self.pauses.wrapping_add(1);
        true
    }

    fn give_home(&mut self) {
        if self.at.is_some() {
            self.homes = self.homes.wrapping_add(1);
            self.leave();
        }
    }

    fn hand_over(&mut self) -> Option<Call> {
        self.give_home();
        None
    }
}

impl<R: Wait> WorkerAccess for Tour<'_, R> {
    ghost arrives = { λ _ _ _ _ _. Unit {0} };

    fn arrive(&mut self, call: Call) -> (Came, Option<Call>) {
        if self.place < self.rows.len() {
            self.at = Some(call.slot);
            (Came::At(1), None)
        } else {
            self.end_call();
            (Came::Nothing, None)
        }
    }
}
