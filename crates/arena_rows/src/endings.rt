// Rows that end: what they held is given back.
ghost use Rattle.std.specs.Prelude.{◌≡◌, ◌<◌, ℕ, length, slice_set, Some, None, IsSome};
ghost use Rattle.std.specs.Option.{ForSome};
ghost use Rattle.task_group.specs.Groups.{group};
ghost use Rattle.region_tag.specs.Region.{IsEntered};
ghost use Rattle.job_language.specs.declared.instructions.TheConstants.{GROUPS};
ghost use Rattle.arena_rows.specs.declared.rows.OpenRow.{OpenRow};
ghost use Rattle.arena_rows.specs.declared.rows.CurrentJob.{CurrentJob};
ghost use Rattle.arena_rows.specs.Represents.{at_place};
ghost use Rattle.arena_rows.specs.HeldChanges.{index_of, with_entry};
ghost use Rattle.arena_rows.specs.Endings.{Left, below, contexts_of, MayLeave, MayEnd, member_left, open_maker, parted, with_ended, CanEnd, HasEnded};
ghost use Rattle.arena_rows.specs.HeldJobs.{held_job, IsCurrent};

use crate::open_rows::OpenRows;
use crate::parts::Parts;
use crate::rows::{OpenRow, Source};
use cancel_context::ContextId;
use job_language::{GROUPS, Group};
use region_tag::RowId;

/// Releases the contexts of groups.
fn release_groups(rows: &mut OpenRows, groups: &[Option<ContextId>; GROUPS])
    requires { MayLeave rows.old.contexts groups.now }
    ensures left { Left rows.old.contexts rows.new.contexts (below groups.now GROUPS) }
    ensures table { rows.new.table ≡ rows.old.table }
{
    for number in 0..GROUPS {
        if let Some(context) = groups[number] {
            rows.release(context);
        }
    }
}

/// Releases the contexts of an open row: those of its groups, and its own if it has one.
fn release_all(rows: &mut OpenRows, entry: &OpenRow)
    requires { MayEnd rows.old.contexts entry.now }
    ensures left { Left rows.old.contexts rows.new.contexts (contexts_of entry.now) }
    ensures table { rows.new.table ≡ rows.old.table }
{
    release_groups(rows, &entry.group_contexts);
    if let Source::Spawned(_, _) = entry.source {
        rows.release(entry.context);
    }
}

impl Parts {
    /// The place of what spawned a row, if that is open, and the group that it was spawned into.
    fn open_maker(&self, source: Source) -> Option<(usize, Group)>
        ensures { result ≡ open_maker self.now.table source }
    {
        let Source::Spawned(maker, group) = source else {
            return None;
        };
        let entry = self.rows.get(maker.place)?;
        if entry.number == maker.number {
            Some((maker.place, group))
        } else {
            None
        }
    }

    /// Lets the row at a place have one pending member less in a group, which ended with a value.
    fn leave(&mut self, place: usize, number: Group, value: i64)
        requires place { place < length self.old.table }
        requires pending { ForSome (at_place self.old.table place)
            (λ e. 0 < (group e.groups number).pending) }
        ensures { ForSome (at_place self.old.table place)
            (λ e. self.new ≡ with_entry self.old place (member_left number value e)) }
    {
        let Some(_maker) = self.rows.get(place) else {
            return;
        };
        self.rows.finish_member(place, number, value);
    }

    /// Lets what spawned a row have one pending member less, if it is open.
    fn leave_maker(&mut self, source: Source, value: i64)
        requires place { ForSome (open_maker self.old.table source)
            (λ p. p.0 < length self.old.table) }
        requires there { ForSome (open_maker self.old.table source)
            (λ p. IsSome (at_place self.old.table p.0)) }
        requires pending { (p : ℕ × ℕ) (e : OpenRow) → open_maker self.old.table source ≡ Some p
            → at_place self.old.table p.0 ≡ Some e → 0 < (group e.groups p.1).pending }
        ensures { self.new ≡ record self.old { table = parted self.old.table source value } }
    {
        if let Some((place, group)) = self.open_maker(source) {
            self.leave(place, group, value);
        }
    }

    /// Takes a row out of the table, and out of the regions.
    fn take_out(&mut self, row: RowId)
        requires place { row.place < length self.old.table }
        requires there { IsSome (at_place self.old.table row.place) }
        requires entered { IsEntered self.old.regions row }
        ensures { self.new ≡ record self.old {
          table = slice_set self.old.table row.place None;
          regions = slice_set self.old.regions row.place None;
        } }
    {
        self.rows.remove(row.place);
        self.regions.exit(row);
    }

    /// Counts one open row less of a job, whose number it was, and notes the value if it was the root.
    fn count_out(&mut self, job: u64, number: u64, value: i64)
        requires current { IsCurrent self.old.jobs job }
        requires some { (d : CurrentJob) → 0 < (held_job self.old job d).open_rows }
        ensures { (d : CurrentJob) → self.new ≡ record self.old {
          jobs = slice_set self.old.jobs (index_of self.old job)
              (with_ended number value (held_job self.old job d));
        } }
    {
        let index = self.index_of(job);
        self.jobs[index].end_row(number, value);
    }

    /// Ends an open row with a value, which is 0 if it has none. The caller takes it off its slot
    /// or out of the pool.
    pub(crate) fn end(&mut self, row: RowId, value: i64)
        requires { CanEnd self.old row }
        ensures { ForSome (at_place self.old.table row.place)
            (λ e. HasEnded self.old self.new row e value) }
    {
        let entry = *self.entry_at(row.place);
        release_all(&mut self.rows, &entry);
        self.leave_maker(entry.source, value);
        self.take_out(row);
        self.count_out(entry.job, row.number, value);
    }
}
