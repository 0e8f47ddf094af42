// The links of the lists.
ghost use Rattle.std.specs.Prelude.{◌≡◌, ◌≢◌, None, ◌<◌, IfOk, length, replicate};
ghost use Rattle.std.specs.Option.{ForSome};
ghost use Rattle.place_lists.specs.Links.{link_at, set_at, joined, left};

use std::alloc::{AllocError, Global};
use std::marker::Model;

/// How many places there may be: a link has 16 bits.
const MAX_PLACES: usize = 65_536;

/// For each list its first and its last place, and for each place what comes after and before it in the
/// list that it is in.
pub(crate) struct Links {
    heads: Vec<Option<u16>>,
    tails: Vec<Option<u16>>,
    next: Vec<Option<u16>>,
    previous: Vec<Option<u16>>,
}

impl Drop for Links {
    // An owner drops it in one call, not part by part at each of its ways out.
    fn drop(self) {
        let Links {
            heads: _heads,
            tails: _tails,
            next: _next,
            previous: _previous,
        } = self;
    }
}

impl Model for Links {
    ghost use Rattle.std.specs.Prelude.{◌≤◌, ◌^◌, length};
    ghost use Rattle.place_lists.specs.Links.{Links};

    ghost Value = { Links };

    ghost view = { λ b. record {
      heads = b.heads.items;
      tails = b.tails.items;
      next = b.next.items;
      previous = b.previous.items;
    } };

    ghost invariant = { λ b. length b.next.items ≤ 2 ^ 16 };
}

impl Links {
    /// `lists` empty lists over `places` places. It fails only if an allocation failed, or if there are
    /// more than `MAX_PLACES` places.
    pub(crate) fn new(alloc: Global, lists: usize, places: usize) -> Result<Links, AllocError>
        ensures { IfOk result
            (λ links. links ≡ record {
              heads = replicate lists None;
              tails = replicate lists None;
              next = replicate places None;
              previous = replicate places None;
            }) }
    {
        if places > MAX_PLACES {
            return Err(AllocError);
        }
        Ok(Links {
            heads: vec![in alloc; None; lists]?,
            tails: vec![in alloc; None; lists]?,
            next: vec![in alloc; None; places]?,
            previous: vec![in alloc; None; places]?,
        })
    }

    /// The first place of a list.
    pub(crate) fn head(&self, list: usize) -> Option<usize>
        ensures { result ≡ link_at self.now.heads list }
    {
        Some(usize::from((*self.heads.get(list)?)?))
    }

    /// The last place of a list.
    pub(crate) fn tail(&self, list: usize) -> Option<usize>
        ensures { result ≡ link_at self.now.tails list }
    {
        Some(usize::from((*self.tails.get(list)?)?))
    }

    /// What comes after a place in the list that it is in.
    pub(crate) fn next(&self, place: usize) -> Option<usize>
        ensures { result ≡ link_at self.now.next place }
    {
        Some(usize::from((*self.next.get(place)?)?))
    }

    /// The number of places.
    pub(crate) fn places(&self) -> usize
        ensures { result ≡ length self.now.next }
    {
        self.next.len()
    }

    /// Puts a place that is in no list at the end of one.
    pub(crate) fn join(&mut self, list: usize, place: usize)
        requires head { list < length self.old.heads }
        requires tail { list < length self.old.tails }
        requires next { place < length self.old.next }
        requires previous { place < length self.old.previous }
        requires last { ForSome (link_at self.old.tails list)
            (λ last. last < length self.old.next) }
        ensures { self.new ≡ joined self.old list place }
    {
        let last = self.tails[list];
        self.next[place] = None;
        self.previous[place] = last;
        let place = place as u16;
        link(&mut self.next, last, Some(place));
        if last.is_none() {
            self.heads[list] = Some(place);
        }
        self.tails[list] = Some(place);
    }

    /// Takes a place from the list that it is in.
    pub(crate) fn leave(&mut self, list: usize, place: usize)
        requires head { list < length self.old.heads }
        requires tail { list < length self.old.tails }
        requires next { place < length self.old.next }
        requires previous { place < length self.old.previous }
        requires before { ForSome (link_at self.old.previous place)
            (λ before. before < length self.old.next) }
        requires after { ForSome (link_at self.old.next place)
            (λ after. after < length self.old.previous) }
        ensures { self.new ≡ left self.old list place }
    {
        let before = self.previous[place];
        let after = self.next[place];
        link(&mut self.next, before, after);
        link(&mut self.previous, after, before);
        if before.is_none() {
            self.heads[list] = after;
        }
        if after.is_none() {
            self.tails[list] = before;
        }
    }
}

/// Links a place, if there is one, to another.
fn link(links: &mut [Option<u16>], place: Option<u16>, to: Option<u16>)
    requires { ForSome place (λ p. p < length links.old) }
    ensures { links.new ≡ set_at links.old place to }
{
    if let Some(place) = place {
        links[usize::from(place)] = to;
    }
}
