// Which dumps of a tenant stay.
ghost use Rattle.std.specs.Prelude.{◌≡◌, ◌∷◌, ◌++◌, [], length, IfOk, IfSome, OnErr, OnOk, None, Ok, Contains};
ghost use Rattle.term_life.specs.Dumps.{newer, without, AreNewest, IsOldest, IsTooOld};

use std::alloc::{AllocError, Global};
use std::marker::Model;

/// The dumps of a tenant that are there, by the numbers of their terms.
#[derive(Drop)]
pub struct Shelf {
    numbers: Vec<u64>,
}

impl Model for Shelf {
    ghost use Rattle.std.specs.Prelude.{ℕ, List};

    ghost Value = { List ℕ };

    ghost view = { λ s. s.numbers.items };
}

impl Shelf {
    /// No dump yet.
    pub fn new(alloc: Global) -> Shelf
        ensures { result ≡ [] }
    {
        Shelf {
            numbers: Vec::new(alloc),
        }
    }

    /// The numbers of the terms whose dumps are there.
    pub fn numbers(&self) -> &[u64]
        ensures { result.now ≡ self.now }
    {
        self.numbers.as_slice()
    }

    /// Notes that the dump of a term is there, and takes the oldest one away if at least `keep` newer ones are there
    /// then: its number. None if all of them are to stay. If those that were there are all among the newest `keep`, so
    /// are those that stay. If an allocation fails, nothing has changed.
    pub fn put(&mut self, number: u64, keep: u64) -> Result<Option<u64>, AllocError>
        ensures all { result ≡ Ok None → self.new ≡ self.old ++ (number ∷ []) }
        ensures was_there { IfOk result
            (λ gone. IfSome gone (λ o. Contains (self.old ++ (number ∷ [])) o)) }
        ensures gone { IfOk result
            (λ gone. IfSome gone (λ o. IsTooOld keep (self.old ++ (number ∷ [])) o
            × (self.new ≡ without o (self.old ++ (number ∷ []))))) }
        ensures oldest { IfOk result
            (λ gone. IfSome gone (λ o. IsOldest (self.old ++ (number ∷ [])) o)) }
        ensures newest { OnOk result (AreNewest keep self.old → AreNewest keep self.new) }
        ensures stay { result ≡ Ok None → AreNewest keep self.new }
        ensures refused { OnErr result (self.new ≡ self.old) }
    {
        self.add(number)?;
        Ok(self.take_too_old(keep))
    }

    /// Notes that the dump of a term is there. If an allocation fails, nothing has changed.
    fn add(&mut self, number: u64) -> Result<(), AllocError>
        ensures added { OnOk result (self.new ≡ self.old ++ (number ∷ [])) }
        ensures refused { OnErr result (self.new ≡ self.old) }
    {
        self.numbers.push(number)?;
        Ok(())
    }

    /// Takes the oldest dump away, if at least `keep` newer ones are there. None if all of them are to stay.
    fn take_too_old(&mut self, keep: u64) -> Option<u64>
        ensures was_there { IfSome result (λ n. Contains self.old n) }
        ensures oldest { IfSome result (λ n. IsOldest self.old n) }
        ensures too_old { IfSome result (λ n. IsTooOld keep self.old n) }
        ensures taken { IfSome result (λ n. self.new ≡ without n self.old) }
        ensures newest { result ≡ None → AreNewest keep self.old }
        ensures kept { result ≡ None → self.new ≡ self.old }
    {
        match too_old(self.numbers.as_slice(), keep) {
            Some(oldest) => {
                remove_all(&mut self.numbers, oldest);
                Some(oldest)
            }
            None => None,
        }
    }
}

/// The oldest of the numbers, if at least `keep` newer ones are among them. None if all of them are to stay.
fn too_old(numbers: &[u64], keep: u64) -> Option<u64>
    ensures was_there { IfSome result (λ n. Contains numbers.now n) }
    ensures oldest { IfSome result (λ n. IsOldest numbers.now n) }
    ensures too_old { IfSome result (λ n. IsTooOld keep numbers.now n) }
    ensures newest { result ≡ None → AreNewest keep numbers.now }
{
    let oldest = oldest_of(numbers)?;
    if newer_than(numbers, oldest) as u64 >= keep {
        Some(oldest)
    } else {
        None
    }
}

/// The oldest of the numbers. None if there are none.
fn oldest_of(numbers: &[u64]) -> Option<u64>
    ensures found { IfSome result (λ n. Contains numbers.now n) }
    ensures oldest { IfSome result (λ n. IsOldest numbers.now n) }
    ensures none { result ≡ None → length numbers.now ≡ 0 }
{
    numbers.iter().copied().min()
}

/// How many of the numbers are newer than one.
fn newer_than(numbers: &[u64], number: u64) -> usize
    ensures { result ≡ newer number numbers.now }
{
    numbers.iter().filter(|other| **other > number).count()
}

fn remove_all(numbers: &mut Vec<u64>, number: u64)
    ensures { numbers.new.items ≡ without number numbers.old.items }
{
    numbers.retain(|other| *other != number);
}
