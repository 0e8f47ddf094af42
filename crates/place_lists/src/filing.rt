// Places that are filed.
ghost use Rattle.std.specs.Prelude.{◌≡◌, ◌≢◌, ◌<◌, ℕ, Some, None, IfOk, IfSome, length, replicate};
ghost use Rattle.place_lists.specs.Filing.{filed_in, with_filed};

use crate::lists::Lists;
use std::alloc::{AllocError, Global};
use std::marker::Model;

/// How many lists there may be.
const MAX_LISTS: usize = 65_536;

/// Places that are each filed in one list, or in none. It knows where each place is filed, so a place is
/// filed elsewhere without a search. No call takes memory but `new`, and none walks a list but
/// `file_all`.
pub struct Filing {
    lists: Lists,
    /// By place, the list that it is filed in.
    by_place: Vec<Option<u16>>,
}

impl Drop for Filing {
    // An owner drops it in one call, not part by part at each of its ways out.
    fn drop(self) {
        let Filing {
            lists: _lists,
            by_place: _by_place,
        } = self;
    }
}

impl Model for Filing {
    ghost use Rattle.std.specs.Prelude.{◌≤◌, ◌^◌, length};
    ghost use Rattle.place_lists.specs.Filing.{Filing, AreFiled};

    ghost Value = { Filing };

    ghost view = { λ b. record { lists = length b.lists.lists; by_place = b.by_place.items } };

    ghost invariant = { λ b. AreFiled b.lists b.by_place.items × (length b.lists.lists ≤ 2 ^ 16) };
}

impl Filing {
    /// `lists` empty lists, and `places` places that are filed in none. It fails only if an allocation
    /// failed, or if there are more than 65,536 lists or places.
    pub fn new(alloc: Global, lists: usize, places: usize) -> Result<Filing, AllocError>
        ensures { IfOk result
            (λ filing. filing ≡ record { lists = lists; by_place = replicate places None }) }
    {
        if lists > MAX_LISTS {
            return Err(AllocError);
        }
        Ok(Filing {
            lists: Lists::new(alloc, lists, places)?,
            by_place: vec![in alloc; None; places]?,
        })
    }

    /// Files a place in a list, at its end, and takes it from where it was filed.
    pub fn file(&mut self, place: usize, list: usize)
        requires place { place < length self.old.by_place }
        requires list { list < self.old.lists }
        ensures { self.new ≡ with_filed self.old place (Some list) }
    {
        self.unfile(place);
        self.lists.push(list, place);
        self.by_place[place] = Some(list as u16);
    }

    /// Takes a place from where it is filed, if it is.
    pub fn unfile(&mut self, place: usize)
        requires { place < length self.old.by_place }
        ensures { self.new ≡ with_filed self.old place None }
    {
        if let Some(list) = self.by_place[place] {
            let list = usize::from(list);
            self.lists.remove(list, place);
        }
        self.by_place[place] = None;
    }

    /// The place that has been filed in a list the longest; a list that is not there is empty.
    pub fn first(&self, list: usize) -> Option<usize>
        ensures none { result ≡ None → (p : ℕ) → filed_in self.now p ≢ Some list }
        ensures some { IfSome result (λ p. filed_in self.now p ≡ Some list) }
    {
        self.lists.first(list)
    }

    /// Files all that is in one list in another, one place at a time.
    pub fn file_all(&mut self, from: usize, to: usize)
        requires { to < self.old.lists }
        ensures moved { (p : ℕ) → filed_in self.old p ≡ Some from → filed_in self.new p ≡ Some to }
        ensures others { (p : ℕ) → filed_in self.old p ≢ Some from
            → filed_in self.new p ≡ filed_in self.old p }
        ensures places { length self.new.by_place ≡ length self.old.by_place }
        ensures lists { self.new.lists ≡ self.old.lists }
    {
        if from == to {
            return;
        }
        while let Some(place) = self.first(from) {
            self.file(place, to);
        }
    }
}
