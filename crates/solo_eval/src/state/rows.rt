// The rows of a tenant, and changes of one of them.
ghost use Rattle.std.specs.Prelude.{◌≡◌, ◌<◌, ◌≤◌, OnOk, OnErr, IfSome, map};
ghost use Rattle.tenant_model.specs.State.{row};
ghost use Rattle.solo_eval.specs.Present.{IsNumberIn};

use crate::chains::{has_cancelled_group, row};
use crate::stacks::{fault_rows, height, open_rows};
use crate::state::TenantState;
use job_language::{GROUPS, Group};
use job_step::Frame;
use std::alloc::AllocError;
use tenant_model::{Kind, Mark, Phase, Row};

impl TenantState {
    ghost use Rattle.std.specs.Prelude.{slice_set};
    ghost use Rattle.tenant_model.specs.State.{with_at_number};
    ghost use Rattle.tenant_model.specs.Walks.{maker_of, is_context_cancelled, settled_row, settle};
    ghost use Rattle.tenant_model.specs.Linked.{MakersPrecede};
    ghost use Rattle.tenant_model.specs.Changes.{on_row, faulted_row, add_row, new_row, with_frame, nest, is_row_limit_met};

    /// All rows, in order of their numbers.
    pub(crate) fn rows(&self) -> &[Row]
        ensures value { result.now ≡ self.now.rows }
        ensures makers { MakersPrecede self.now.rows }
    {
        self.rows.as_slice()
    }

    /// The row of a number.
    pub(crate) fn row(&self, number: u64) -> Row
        requires row { IsNumberIn self.now.rows number }
        ensures value { result ≡ row self.now.rows number }
        ensures maker { IfSome (maker_of result.kind) (λ m. (1 ≤ m) × (m < number)) }
        ensures job { IsNumberIn self.now.jobs result.job }
    {
        *row(self.rows.as_slice(), number)
    }

    /// Replaces a row by one with the same maker and job.
    fn set_row(&mut self, number: u64, changed: Row)
        requires row { IsNumberIn self.old.rows number }
        requires kind { changed.kind ≡ (row self.old.rows number).kind }
        requires job { changed.job ≡ (row self.old.rows number).job }
        ensures { self.new ≡ record self.old {
          rows = with_at_number self.old.rows number
              changed;
        } }
    {
        self.rows[number as usize - 1] = changed;
    }

    /// Adds a row with the next number. If an allocation failed, nothing has changed.
    pub(crate) fn add_row(
        &mut self,
        kind: Kind,
        job: u64,
        made_on: Option<u8>,
        frame: Frame,
        phase: Phase,
    ) -> Result<(), AllocError>
        requires maker { IfSome (maker_of kind) (IsNumberIn self.old.rows) }
        requires job { IsNumberIn self.old.jobs job }
        ensures ok { OnOk result
            (self.new ≡ add_row self.old (new_row kind job made_on frame phase)) }
        ensures err { OnErr result (self.new ≡ self.old) }
    {
        let marks = [Mark {
            rows: 0,
            cancelled: false,
        }; GROUPS];
        self.rows.push(Row {
            kind,
            job,
            made_on,
            frame,
            phase,
            marks,
        })?;
        Ok(())
    }

    /// Sets the frame of a row.
    pub(crate) fn set_frame(&mut self, number: u64, frame: Frame)
        requires row { IsNumberIn self.old.rows number }
        ensures { self.new ≡ with_frame self.old number frame }
    {
        let row = self.row(number);
        self.set_row(number, Row { frame, ..row });
    }

    /// Makes a row live on top of a slot.
    pub(crate) fn nest(&mut self, slot: u8, number: u64)
        requires row { IsNumberIn self.old.rows number }
        ensures { self.new ≡ nest self.old slot number }
    {
        let row = self.row(number);
        let height = height(self.rows(), slot) + 1;
        let phase = Phase::Live(slot, height);
        self.set_row(number, Row { phase, ..row });
    }

    /// Sets a mark and the frame of a row.
    pub(crate) fn set_mark(&mut self, number: u64, group: Group, mark: Mark, frame: Frame)
        requires row { IsNumberIn self.old.rows number }
        ensures { self.new ≡ on_row self.old number
            (λ r. record r { frame = frame; marks = slice_set r.marks group mark }) }
    {
        let row = self.row(number);
        let mut marks = row.marks;
        marks[group.index()] = mark;
        self.set_row(
            number,
            Row {
                frame,
                marks,
                ..row
            },
        );
    }

    /// Ends a row with a value.
    pub(crate) fn end_row(&mut self, number: u64, frame: Frame, value: i64)
        requires row { IsNumberIn self.old.rows number }
        ensures { self.new ≡ on_row self.old number
            (λ r. record r { frame = frame; phase = Phase.Done value }) }
    {
        let row = self.row(number);
        let phase = Phase::Done(value);
        self.set_row(
            number,
            Row {
                frame,
                phase,
                ..row
            },
        );
    }

    /// Ends the rows on a slot from a height on.
    pub(crate) fn fault_rows(&mut self, slot: u8, from: u64)
        ensures { self.new ≡ record self.old { rows = map (faulted_row slot from) self.old.rows } }
    {
        fault_rows(self.rows.as_mut_slice(), slot, from);
    }

    /// Whether the context of a row is cancelled.
    pub(crate) fn is_context_cancelled(&self, number: u64) -> bool
        requires row { IsNumberIn self.now.rows number }
        ensures { result ≡ is_context_cancelled self.now number }
    {
        self.job_of(number).is_cancelled() || has_cancelled_group(self.rows(), number)
    }

    /// Drops a row that has not started, if its context is cancelled.
    fn settle_row(&mut self, number: u64)
        requires row { IsNumberIn self.old.rows number }
        ensures { self.new ≡ record self.old {
          rows = with_at_number self.old.rows number
              (settled_row (row self.old.rows number) (is_context_cancelled self.old number));
        } }
    {
        let row = self.row(number);
        if row.phase.is_unstarted() && self.is_context_cancelled(number) {
            let phase = Phase::Dropped;
            self.set_row(number, Row { phase, ..row });
        } else {
            self.set_row(number, row);
        }
    }

    /// Drops the rows that have not started and whose context is cancelled.
    pub(crate) fn settle(&mut self)
        ensures { self.new ≡ settle self.old }
    {
        for place in 0..self.rows().len() {
            self.settle_row(place as u64 + 1);
        }
    }

    /// Whether no row may be made.
    pub(crate) fn is_row_limit_met(&self) -> bool
        ensures { result ≡ is_row_limit_met self.now }
    {
        self.config.tenant().rows <= open_rows(self.rows())
    }
}
