// Changes of an arena's parts, one at a time.
ghost use Rattle.std.specs.Prelude.{◌≡◌, ◌<◌, ◌+◌, ◌^◌, ℕ, length, slice_index_or, Some, None};
ghost use Rattle.std.specs.Option.{ForSome};
ghost use Rattle.task_group.specs.Groups.{group};
ghost use Rattle.arena_rows.specs.declared.rows.CurrentJob.{CurrentJob};
ghost use Rattle.nest_stack.specs.declared.stack.TheConstants.{MAX_HEIGHT};
ghost use Rattle.nest_stack.specs.Nest.{stack};
ghost use Rattle.job_step.specs.declared.frames.Frame.{Frame};
ghost use Rattle.arena_rows.specs.declared.rows.OpenRow.{OpenRow};
ghost use Rattle.arena_rows.specs.declared.rows.Stage.TheVariants as stage;
ghost use Rattle.arena_rows.specs.Held.{HasFreePlace};
ghost use Rattle.arena_rows.specs.Represents.{at_place, IsFree};
ghost use Rattle.arena_rows.specs.HeldChanges.{started, counted, framed, next_id, index_of, outer_of, entered, job_counted, new_entry, with_entry, with_member, put, region_pushed, CanWait};
ghost use Rattle.arena_rows.specs.HeldJobs.{held_job, IsCurrent};
ghost use Rattle.region_tag.specs.Region.{region_of};

use crate::job_places::place_of;
use crate::parts::Parts;
use crate::rows::{Source, Stage};
use cancel_context::ContextId;
use job_language::Group;
use job_step::Frame;
use region_tag::RowId;

impl Parts {
    /// A row that waits goes live on top of a slot.
    pub(crate) fn start(&mut self, slot: u8, row: RowId)
        requires place { row.place < length self.old.table }
        requires slot { slot < length self.old.nests }
        requires height { length (stack self.old.nests slot) < MAX_HEIGHT }
        ensures { (e : OpenRow) (f : Frame) → at_place self.old.table row.place ≡ Some e
            → e.stage ≡ stage.Waiting f
            → self.new ≡ started self.old slot row e f }
    {
        let on = usize::from(slot);
        let height = self.nests.height(on) as u64 + 1;
        let Some(opened) = self.rows.get(row.place) else {
            return;
        };
        let Stage::Waiting(frame) = opened.stage else {
            return;
        };
        self.rows.start(row.place, slot, height);
        self.pool.remove(row, &self.regions);
        self.nests.push(on, frame, row, false);
    }

    /// Counts an entry.
    pub(crate) fn count(&mut self)
        requires { self.old.entries < self.old.config.steps }
        ensures { self.new ≡ counted self.old }
    {
        self.entries += 1;
    }

    /// Moves the frame of a slot's topmost row on.
    pub(crate) fn set_frame(&mut self, slot: u8, frame: Frame)
        requires slot { slot < length self.old.nests }
        requires height { 0 < length (stack self.old.nests slot) }
        ensures { self.new ≡ framed self.old slot frame }
    {
        self.nests.set_top(usize::from(slot), frame);
    }

    /// Where a job stands among those that are held.
    pub(crate) fn index_of(&self, job: u64) -> usize
        requires { IsCurrent self.now.jobs job }
        ensures value { result ≡ index_of self.now job }
        ensures within { result < length self.now.jobs }
    {
        place_of(&self.jobs, job)
    }

    /// Takes the next row into the table, and among the regions.
    pub(crate) fn enter_row(
        &mut self,
        source: Source,
        job: u64,
        made_on: Option<u8>,
        stage: Stage,
        context: ContextId,
    ) -> RowId
        requires free { HasFreePlace self.old }
        requires few { self.old.made < 2 ^ 32 }
        requires regions { length self.old.regions ≡ length self.old.table }
        requires vacant { (p : ℕ) → IsFree self.old.table p
            → slice_index_or self.old.regions p None ≡ None }
        requires earlier { ForSome (outer_of self.old.regions source)
            (λ region. region.number < self.old.made + 1) }
        ensures place { IsFree self.old.table result.place }
        ensures row { result ≡ next_id self.old result.place }
        ensures entered { self.new ≡ entered self.old result.place
            (new_entry (self.old.made + 1) source job made_on stage context) }
    {
        self.made += 1;
        let number = self.made;
        let outer = match source {
            Source::Root | Source::Posted => None,
            Source::Spawned(maker, _) | Source::Region(maker) => self.regions.region_of(maker),
        };
        let is_region = matches!(source, Source::Region(_));
        let place = self
            .rows
            .insert(number, source, job, made_on, stage, context);
        let row = RowId { number, place };
        self.regions.enter(row, outer, is_region);
        row
    }

    /// Counts one more open row of a job.
    pub(crate) fn count_row(&mut self, job: u64)
        requires current { IsCurrent self.old.jobs job }
        requires few { (d : CurrentJob)
            → (held_job self.old job d).open_rows < length self.old.table }
        ensures { (d : CurrentJob) → self.new ≡ job_counted self.old job d }
    {
        // Proof hint: the number of places is in range.
        let _ = self.rows.len();
        let index = self.index_of(job);
        self.jobs[index].open_rows += 1;
    }

    /// Lets the row at a place have one more member in a group.
    pub(crate) fn join(&mut self, place: usize, number: Group)
        requires place { place < length self.old.table }
        requires few { ForSome (at_place self.old.table place)
            (λ e. (group e.groups number).pending < u32.MAX) }
        ensures { ForSome (at_place self.old.table place)
            (λ e. self.new ≡ with_entry self.old place (with_member number e)) }
    {
        let Some(_maker) = self.rows.get(place) else {
            return;
        };
        self.rows.add_member(place, number);
    }

    /// Lets a row wait to be started.
    pub(crate) fn wait(&mut self, row: RowId, made_on: Option<u8>)
        requires { CanWait self.old row made_on }
        ensures { self.new ≡ put self.old (record {
          row = row;
          made_on = made_on;
          region = region_of self.old.regions row;
        }) }
    {
        let region = self.regions.region_of(row);
        let made_on = made_on.map(usize::from);
        self.pool.put(row, made_on, region, &self.regions);
    }

    /// Puts a region on top of a slot.
    pub(crate) fn push_region(&mut self, slot: u8, frame: Frame, row: RowId)
        requires slot { slot < length self.old.nests }
        requires height { length (stack self.old.nests slot) < MAX_HEIGHT }
        ensures { self.new ≡ region_pushed self.old slot frame row }
    {
        self.nests.push(usize::from(slot), frame, row, true);
    }
}
