// Families of lists: a place is in at most one list of each.
ghost use Rattle.std.specs.Prelude.{◌≡◌, ◌<◌, ℕ, Some, length};
ghost use Rattle.std.specs.Option.{ForSome};
ghost use Rattle.place_lists.specs.Lists.{list_in, IsIn, without};
ghost use Rattle.ready_pool.specs.Parts.{extended};

use place_lists::Lists;

/// Adds a place at the end of a list, if there is one.
pub(crate) fn join(lists: &mut Lists, list: Option<usize>, place: usize)
    requires list { ForSome list (λ l. l < length lists.old.lists) }
    requires place { place < lists.old.places }
    requires free { (l : ℕ) → IsIn (list_in lists.old l) place → ⊥ }
    ensures joined { (l : ℕ) → list_in lists.new l ≡ extended list place l (list_in lists.old l) }
    ensures count { length lists.new.lists ≡ length lists.old.lists }
    ensures places { lists.new.places ≡ lists.old.places }
{
    if let Some(list) = list {
        lists.push(list, place);
    }
}

/// Takes a place from the list that it is in, if there is one.
pub(crate) fn leave(lists: &mut Lists, list: Option<usize>, place: usize)
    requires there { ForSome list (λ l. IsIn (list_in lists.old l) place) }
    requires alone { (l : ℕ) → IsIn (list_in lists.old l) place → list ≡ Some l }
    ensures left { (l : ℕ) → list_in lists.new l ≡ without place (list_in lists.old l) }
    ensures count { length lists.new.lists ≡ length lists.old.lists }
    ensures places { lists.new.places ≡ lists.old.places }
{
    if let Some(list) = list {
        lists.remove(list, place);
    }
}
