// A table of places.
ghost use Rattle.std.specs.Prelude.{◌≡◌, ◌<◌, ◌==◌, None, Some, IfOk, IsSome, is_some, count_by, length, replicate, slice_index_or, slice_set};
ghost use Rattle.std.specs.Option.{option_copied};
ghost use Rattle.std.specs.Borrow.{Lends, sem};

use slab::Slab;
use std::alloc::{AllocError, Global};
use std::marker::Model;

/// Values at places from 0 on, which the table picks. A place that became free is used again. No call
/// takes memory but `new`.
#[derive(Drop)]
pub struct PlaceTable<T> {
    values: Slab<T>,
    places: usize,
}

impl<T> Model for PlaceTable<T> {
    ghost use Rattle.std.specs.Prelude.{List, Option};
    ghost use Rattle.std.specs.Coded.{coded_list, coded_option};
    ghost use Rattle.place_table.specs.Places.{table_of, IsTable};

    ghost Value = { List (Option T) };

    ghost coded = { coded_list (coded_option T.code) };

    ghost view = { λ p. table_of p.values p.places };

    ghost invariant = { λ p. IsTable p.values p.places };
}

impl<T: Drop> PlaceTable<T> {
    ghost use Rattle.place_table.specs.contracts.table.PlaceTable.{the_row};

    /// A table of that many places, all of them free.
    pub fn new(alloc: Global, places: usize) -> Result<PlaceTable<T>, AllocError>
        ensures { IfOk result (λ table. table ≡ replicate places None) }
    {
        let values = Slab::with_capacity(alloc, places)?;
        // A slab takes the room that it is asked for, and no more. Its contract does not say so.
        if values.capacity() != places {
            return Err(AllocError);
        }
        Ok(PlaceTable { values, places })
    }

    /// How many places there are.
    pub fn len(&self) -> usize
        ensures { result ≡ length self.now }
    {
        self.places
    }

    /// How many places are taken.
    pub fn count(&self) -> usize
        ensures { result ≡ count_by is_some self.now }
    {
        self.values.len()
    }

    /// Whether no place is free.
    pub fn is_full(&self) -> bool
        ensures { result ≡ (count_by is_some self.now == length self.now) }
    {
        self.values.len() == self.places
    }

    /// Whether all places are free.
    pub fn is_empty(&self) -> bool
        ensures { result ≡ (count_by is_some self.now == 0) }
    {
        self.values.is_empty()
    }

    /// What stands at a place; nothing if it is free, or not there.
    pub fn get(&self, place: usize) -> Option<&T>
        ensures { option_copied result ≡ slice_index_or self.now place None }
    {
        self.values.get(place)
    }

    /// Puts a value at a free place, and gives the place.
    pub fn insert(&mut self, value: T) -> usize
        requires { count_by is_some self.old < length self.old }
        ensures free { slice_index_or self.old result None ≡ None }
        ensures place { result < length self.old }
        ensures put { self.new ≡ slice_set self.old result (Some value) }
    {
        self.values.insert_reserved(value)
    }

    /// Takes the value from a place.
    pub fn remove(&mut self, place: usize) -> T
        requires { IsSome (slice_index_or self.old place None) }
        ensures value { slice_index_or self.old place None ≡ Some result }
        ensures rest { self.new ≡ slice_set self.old place None }
    {
        self.values.remove(place)
    }

    /// The value at a place, for writing.
    pub fn at_mut(&mut self, place: usize) -> &mut T
        requires { IsSome (slice_index_or self.old place None) }
        ensures* writes_back { sem 𝓛
            (Lends (the_row T.row) T.row self.entry result
            (λ value. slice_set self.old place (Some value))) }
        ensures value { slice_index_or self.old place None ≡ Some result.now }
    {
        &mut self.values[place]
    }
}
