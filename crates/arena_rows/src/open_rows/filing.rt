// Where rows are filed by their contexts.
ghost use Rattle.std.specs.Prelude.{◌≡◌, ◌⊎◌, ◌<◌, ◌==◌, ℕ, None, Some, Contains, IfSome, [], length, slice_index_or, slice_set, vec_capacity};
ghost use Rattle.place_lists.specs.Filing.{filed_in};
ghost use Rattle.arena_rows.specs.OpenRows.{AreFiled, AreFine, IsDoomed, list_for};
ghost use Rattle.arena_rows.specs.declared.rows.OpenRow.{OpenRow};
ghost use Rattle.std.specs.Option.{ForSome};

use crate::rows::{OpenRow, Stage};
use cancel_context::{ContextId, Contexts};
use place_lists::Filing;
use place_table::PlaceTable;

/// Where a row is filed.
pub(super) fn list_for(contexts: &Contexts, doomed: usize, entry: &OpenRow) -> Option<usize>
    requires { doomed ≡ length contexts.now }
    ensures { result ≡ list_for contexts.now (Some entry.now) }
{
    let Stage::Waiting(_) = entry.stage else {
        return None;
    };
    if contexts.is_held_and_cancelled(entry.context) {
        return Some(doomed);
    }
    let list = entry.context.index();
    if list < doomed { Some(list) } else { None }
}

/// Where what stands at a place is filed.
pub(super) fn list_at(
    table: &PlaceTable<OpenRow>,
    contexts: &Contexts,
    doomed: usize,
    place: usize,
) -> Option<usize>
    requires { doomed ≡ length contexts.now }
    ensures { result ≡ list_for contexts.now (slice_index_or table.now place None) }
{
    let entry = table.get(place)?;
    list_for(contexts, doomed, entry)
}

/// The place of a row that waits and whose context is cancelled. A row that is with the doomed, and whose
/// context is not cancelled any more, is filed anew on the way.
pub(super) fn next_doomed(
    table: &PlaceTable<OpenRow>,
    contexts: &Contexts,
    filing: &mut Filing,
    doomed: usize,
) -> Option<usize>
    requires { AreFiled table.now contexts.now filing.old doomed [] }
    ensures filed { AreFiled table.now contexts.now filing.new doomed [] }
    ensures none { result ≡ None → AreFine (record { table = table.now; contexts = contexts.now }) }
    ensures some { IfSome result
        (IsDoomed (record { table = table.now; contexts = contexts.now })) }
{
    while let Some(place) = filing.first(doomed) {
        let list = list_at(table, contexts, doomed, place);
        if list == Some(doomed) {
            return Some(place);
        }
        file(filing, place, list);
    }
    None
}

/// Files a place in a list, or in none.
pub(super) fn file(filing: &mut Filing, place: usize, list: Option<usize>)
    requires place { place < length filing.old.by_place }
    requires list { ForSome list (λ l. l < filing.old.lists) }
    ensures { filing.new
        ≡ record filing.old { by_place = slice_set filing.old.by_place place list } }
{
    match list {
        Some(list) => filing.file(place, list),
        None => filing.unfile(place),
    }
}

/// Files with the doomed what waits under contexts that were cancelled, and forgets these.
pub(super) fn doom(filing: &mut Filing, turned: &mut Vec<ContextId>, doomed: usize)
    requires { doomed < filing.old.lists }
    ensures moved { (p c : ℕ) → Contains turned.old.items c → filed_in filing.old p ≡ Some c
        → filed_in filing.new p ≡ Some doomed }
    ensures others { (p : ℕ)
        → (filed_in filing.new p ≡ filed_in filing.old p) ⊎ (filed_in filing.new p ≡ Some doomed) }
    ensures places { length filing.new.by_place ≡ length filing.old.by_place }
    ensures lists { filing.new.lists ≡ filing.old.lists }
    ensures none { turned.new.items ≡ [] }
    ensures capacity { vec_capacity turned.new ≡ vec_capacity turned.old }
{
    while let Some(context) = turned.pop() {
        filing.file_all(context.index(), doomed);
    }
}
