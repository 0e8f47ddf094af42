// The open rows and their contexts, with the rows that wait filed by their contexts.

mod contexts;
mod filing;

ghost use Rattle.std.specs.Prelude.{◌≡◌, ◌+◌, ◌*◌, ◌<◌, ◌≤◌, ◌==◌, None, Some, IfOk, IfSome, IsSome, count_by, is_some, length, replicate, slice_index_or, slice_set, vec_capacity};
ghost use Rattle.cancel_context.specs.Forest.{IsForest};
ghost use Rattle.cancel_context.specs.declared.contexts.TheConstants.{BASE_CONTEXTS, CONTEXTS_PER_ROW, MAX_ROWS};
ghost use Rattle.arena_rows.specs.OpenRows.{AreFine, IsDoomed};
ghost use Rattle.arena_rows.specs.RowChanges.{row_changed};
ghost use Rattle.arena_rows.specs.Represents.{IsFree};
ghost use Rattle.arena_rows.specs.HeldChanges.{new_entry, with_group, with_member};
ghost use Rattle.arena_rows.specs.Endings.{member_left};
ghost use Rattle.arena_rows.specs.MarkedGroups.{with_group_emptied};
ghost use Rattle.arena_rows.specs.declared.rows.OpenRow.{OpenRow};
ghost use Rattle.task_group.specs.Groups.{group};
ghost use Rattle.arena_rows.specs.declared.rows.Stage.TheVariants as stage;
ghost use Rattle.std.specs.Option.{ForSome, option_copied};

use crate::rows::{OpenRow, Source, Stage};
use cancel_context::{BASE_CONTEXTS, CONTEXTS_PER_ROW, ContextId, Contexts};
use filing::{file, list_for, next_doomed};
use job_language::{GROUPS, Group};
use place_lists::Filing;
use place_table::PlaceTable;
use std::alloc::{AllocError, Global};
use std::marker::Model;
use task_group::Groups;

/// The open rows by their places, and the contexts. A row that waits is filed by its context, so that a
/// cancellation leads to the rows that are to be dropped, and no others are looked at.
pub(crate) struct OpenRows {
    table: PlaceTable<OpenRow>,
    contexts: Contexts,
    /// For each context the places of the rows that wait under it; and last the doomed: rows that wait
    /// whose context was cancelled when they were filed, or since then.
    filing: Filing,
    /// The list of the doomed: the number of contexts.
    doomed: usize,
    /// Room for the contexts that a cancellation reaches.
    turned: Vec<ContextId>,
}

impl Drop for OpenRows {
    // An owner drops it in one call, not part by part at each of its ways out.
    fn drop(self) {
        let OpenRows {
            table: _table,
            contexts: _contexts,
            filing: _filing,
            doomed: _doomed,
            turned: _turned,
        } = self;
    }
}

impl Model for OpenRows {
    ghost use Rattle.std.specs.Prelude.{◌≤◌, length, vec_capacity};
    ghost use Rattle.arena_rows.specs.OpenRows.{OpenRows, AreFiled};

    ghost Value = { OpenRows };

    ghost view = { λ r. record { table = r.table; contexts = r.contexts } };

    ghost invariant = { λ r. AreFiled r.table r.contexts r.filing r.doomed r.turned.items
        × (length r.contexts ≤ vec_capacity r.turned) };
}

impl OpenRows {
    /// No rows and no contexts, with room for as many rows as asked for and for their contexts.
    pub(crate) fn new(alloc: Global, rows: usize) -> Result<OpenRows, AllocError>
        requires { rows ≤ MAX_ROWS }
        ensures { IfOk result (λ made. made ≡ record {
          table = replicate rows None;
          contexts = replicate (BASE_CONTEXTS + CONTEXTS_PER_ROW * rows) None;
        }) }
    {
        let doomed = BASE_CONTEXTS + CONTEXTS_PER_ROW * rows;
        let table = PlaceTable::new(alloc, rows)?;
        let contexts = Contexts::new(alloc, rows)?;
        let filing = Filing::new(alloc, doomed + 1, rows)?;
        let turned = Vec::with_capacity(alloc, doomed)?;
        Ok(OpenRows {
            table,
            contexts,
            filing,
            doomed,
            turned,
        })
    }

    /// How many places there are.
    pub(crate) fn len(&self) -> usize
        ensures { result ≡ length self.now.table }
    {
        self.table.len()
    }

    /// How many places are taken.
    pub(crate) fn count(&self) -> usize
        ensures { result ≡ count_by is_some self.now.table }
    {
        self.table.count()
    }

    /// Whether no place is free.
    pub(crate) fn is_full(&self) -> bool
        ensures { result ≡ (count_by is_some self.now.table == length self.now.table) }
    {
        self.table.is_full()
    }

    /// Whether all places are free.
    pub(crate) fn is_empty(&self) -> bool
        ensures { result ≡ (count_by is_some self.now.table == 0) }
    {
        self.table.is_empty()
    }

    /// What stands at a place; nothing if it is free, or not there.
    pub(crate) fn get(&self, place: usize) -> Option<&OpenRow>
        ensures { option_copied result ≡ slice_index_or self.now.table place None }
    {
        self.table.get(place)
    }

    /// Lets a new row stand at a place that was free, and gives the place. None of its groups is used.
    #[inline(always)]
    pub(crate) fn insert(
        &mut self,
        number: u64,
        source: Source,
        job: u64,
        made_on: Option<u8>,
        stage: Stage,
        context: ContextId,
    ) -> usize
        requires { count_by is_some self.old.table < length self.old.table }
        ensures free { IsFree self.old.table result }
        ensures put { self.new ≡ record self.old {
          table = slice_set self.old.table result
              (Some (new_entry number source job made_on stage context));
        } }
    {
        let entry = OpenRow {
            number,
            source,
            job,
            made_on,
            stage,
            groups: Groups::new(),
            group_contexts: [None; GROUPS],
            context,
        };
        let list = list_for(&self.contexts, self.doomed, &entry);
        let place = self.table.insert(entry);
        file(&mut self.filing, place, list);
        place
    }

    /// Takes the row from a place, which is free after that.
    pub(crate) fn remove(&mut self, place: usize)
        requires place { place < length self.old.table }
        requires there { IsSome (slice_index_or self.old.table place None) }
        ensures { self.new ≡ record self.old { table = slice_set self.old.table place None } }
    {
        self.table.remove(place);
        self.filing.unfile(place);
    }

    /// Lets the row at a place go live on a slot, at a height.
    pub(crate) fn start(&mut self, place: usize, slot: u8, height: u64)
        requires place { place < length self.old.table }
        requires there { IsSome (slice_index_or self.old.table place None) }
        ensures { self.new ≡ row_changed self.old place
            (λ e. record e { stage = stage.Live slot height }) }
    {
        let entry = self.table.at_mut(place);
        entry.stage = Stage::Live(slot as usize, height);
        self.filing.unfile(place);
    }

    /// Gives the row at a place other groups.
    pub(crate) fn set_groups(&mut self, place: usize, groups: Groups)
        requires place { place < length self.old.table }
        requires there { IsSome (slice_index_or self.old.table place None) }
        ensures { self.new ≡ row_changed self.old place (λ e. record e { groups = groups }) }
    {
        let entry = self.table.at_mut(place);
        entry.groups = groups;
    }

    /// Lets the row at a place have one more pending member in a group.
    pub(crate) fn add_member(&mut self, place: usize, number: Group)
        requires place { place < length self.old.table }
        requires there { IsSome (slice_index_or self.old.table place None) }
        requires few { ForSome (slice_index_or self.old.table place None)
            (λ e. (group e.groups number).pending < u32.MAX) }
        ensures { self.new ≡ row_changed self.old place (with_member number) }
    {
        self.table.at_mut(place).join(number);
    }

    /// Lets the row at a place have one pending member less in a group, which ended with a value.
    pub(crate) fn finish_member(&mut self, place: usize, number: Group, value: i64)
        requires place { place < length self.old.table }
        requires there { IsSome (slice_index_or self.old.table place None) }
        requires pending { ForSome (slice_index_or self.old.table place None)
            (λ e. 0 < (group e.groups number).pending) }
        ensures { self.new ≡ row_changed self.old place (member_left number value) }
    {
        self.table.at_mut(place).leave(number, value);
    }

    /// Lets a group of the row at a place, with no member that is open, have none at all.
    pub(crate) fn empty_group(&mut self, place: usize, number: Group)
        requires place { place < length self.old.table }
        requires there { IsSome (slice_index_or self.old.table place None) }
        requires ended { ForSome (slice_index_or self.old.table place None)
            (λ e. (group e.groups number).pending ≡ 0) }
        ensures { self.new ≡ row_changed self.old place (with_group_emptied number) }
    {
        self.table.at_mut(place).empty_group(number);
    }

    /// Gives a group of the row at a place a context.
    pub(crate) fn set_group_context(&mut self, place: usize, group: Group, context: ContextId)
        requires place { place < length self.old.table }
        requires there { IsSome (slice_index_or self.old.table place None) }
        ensures { self.new ≡ row_changed self.old place (with_group group context) }
    {
        let entry = self.table.at_mut(place);
        entry.group_contexts[group.index()] = Some(context);
    }

    /// The place of a row that waits and whose context is cancelled.
    pub(crate) fn next_doomed(&mut self) -> Option<usize>
        ensures same { self.new ≡ self.old }
        ensures sound { IsForest self.old.contexts }
        ensures none { result ≡ None → AreFine self.old }
        ensures some { IfSome result (IsDoomed self.old) }
    {
        next_doomed(&self.table, &self.contexts, &mut self.filing, self.doomed)
    }
}
