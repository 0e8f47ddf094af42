// Lists of places.
ghost use Rattle.std.specs.Prelude.{◌≡◌, ◌≢◌, [], ◌∷◌, ◌++◌, ◌<◌, ◌≤◌, ℕ, IfOk, length};
ghost use Rattle.std.specs.Iterator.{YieldsFirst, item_count};
ghost use Rattle.place_lists.specs.Lists.{list_in, IsIn, first_of, last_of, without};

use crate::links::Links;
use std::alloc::{AllocError, Global};
use std::marker::Model;

/// Lists of places, numbered from 0 as the places are. A place is in at most one of the lists, once. No
/// call walks a list, and none takes memory but `new`.
#[derive(Drop)]
pub struct Lists {
    links: Links,
}

impl Model for Lists {
    ghost use Rattle.place_lists.specs.Lists.{Lists, list_of, lists_of};
    ghost use Rattle.place_lists.specs.Linked.{IsLinked};

    ghost Value = { Lists };

    ghost view = { λ b. lists_of b.links };

    ghost invariant = { λ b. IsLinked b.links (list_of b.links) };
}

impl Lists {
    /// `lists` empty lists over `places` places. It fails only if an allocation failed, or if there
    /// are more than 65,536 places.
    pub fn new(alloc: Global, lists: usize, places: usize) -> Result<Lists, AllocError>
        ensures count { IfOk result (λ made. length made.lists ≡ lists) }
        ensures places { IfOk result (λ made. made.places ≡ places) }
        ensures empty { IfOk result (λ made. (l : ℕ) → list_in made l ≡ []) }
    {
        Ok(Lists {
            links: Links::new(alloc, lists, places)?,
        })
    }

    /// Adds a place at the end of a list.
    pub fn push(&mut self, list: usize, place: usize)
        requires list { list < length self.old.lists }
        requires place { place < self.old.places }
        requires free { (l : ℕ) → IsIn (list_in self.old l) place → ⊥ }
        ensures pushed { list_in self.new list ≡ list_in self.old list ++ place ∷ [] }
        ensures others { (l : ℕ) → l ≢ list → list_in self.new l ≡ list_in self.old l }
        ensures count { length self.new.lists ≡ length self.old.lists }
        ensures places { self.new.places ≡ self.old.places }
    {
        self.links.join(list, place);
    }

    /// Takes a place from the list that it is in.
    pub fn remove(&mut self, list: usize, place: usize)
        requires { IsIn (list_in self.old list) place }
        ensures removed { (l : ℕ) → list_in self.new l ≡ without place (list_in self.old l) }
        ensures others { (l : ℕ) → l ≢ list → list_in self.new l ≡ list_in self.old l }
        ensures count { length self.new.lists ≡ length self.old.lists }
        ensures places { self.new.places ≡ self.old.places }
    {
        self.links.leave(list, place);
    }

    /// The first place of a list; a list that is not there is empty.
    pub fn first(&self, list: usize) -> Option<usize>
        ensures { result ≡ first_of (list_in self.now list) }
    {
        self.links.head(list)
    }

    /// The last place of a list; a list that is not there is empty.
    pub fn last(&self, list: usize) -> Option<usize>
        ensures { result ≡ last_of (list_in self.now list) }
    {
        self.links.tail(list)
    }

    /// The places of a list, from the first to the last.
    pub fn iter(&self, list: usize) -> Places<'_>
        ensures { result ≡ list_in self.now list }
    {
        Places {
            links: &self.links,
            at: self.links.head(list),
            left: self.links.places(),
        }
    }
}

/// The places of a list that are still to come.
#[derive(Drop)]
pub struct Places<'a> {
    links: &'a Links,
    at: Option<usize>,
    left: usize,
}

impl<'a> Model for Places<'a> {
    ghost use Rattle.std.specs.Prelude.{List, ℕ};
    ghost use Rattle.place_lists.specs.Lists.{walk};

    ghost Value = { List ℕ };

    ghost view = { λ p. walk p.left p.links.now.next p.at };
}

impl<'a> Iterator for Places<'a> {
    type Item = usize;

    ghost next_gives = { YieldsFirst (λ s. s) };

    ghost remaining = { item_count (λ s. s) };

    fn next(&mut self) -> Option<usize> {
        if self.left == 0 {
            return None;
        }
        let place = self.at?;
        self.left -= 1;
        self.at = self.links.next(place);
        Some(place)
    }
}
