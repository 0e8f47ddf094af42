// The dumps that are there.
ghost use Rattle.std.specs.Prelude.{◌≡◌, ◌==◌, ◌≤◌, [], Contains, EachIndex, IfOk, IfSome, None, OnErr, length, slice_index};
ghost use Rattle.std.specs.List.{list_any, position};
ghost use Rattle.host_folder.specs.Shelves.{has_name, numbers_of, IsAfterNewest, IsPut, KeepsAll, KeepsOthers};

use std::alloc::{AllocError, Global};
use term_life::Shelf;

/// The dumps of a tenant.
#[derive(Drop)]
struct Named {
    /// The tenant's name.
    name: String,
    shelf: Shelf,
}

/// The dumps of each tenant, as the host found them at its start and wrote them since.
#[derive(Drop)]
pub struct Shelves {
    tenants: Vec<Named>,
}

impl Shelves {
    /// No dumps yet.
    pub(crate) fn new(alloc: Global) -> Shelves
        ensures { result.tenants.items ≡ [] }
    {
        Shelves {
            tenants: Vec::new(alloc),
        }
    }

    /// Notes that a tenant's dump of a term is there, and takes the term of its oldest one away, if at least
    /// `keep` newer ones are there then. None if all of them are to stay. If an allocation fails, nothing has changed.
    pub(crate) fn put(
        &mut self,
        alloc: Global,
        name: &str,
        term: u64,
        keep: u32,
    ) -> Result<Option<u64>, AllocError>
        ensures put { IfOk result (λ gone. IsPut keep term
            (numbers_of self.old name.now) (numbers_of self.new name.now) gone) }
        ensures others { KeepsOthers name.now self.old self.new }
        ensures refused { OnErr result (KeepsAll self.old self.new) }
    {
        let keep = u64::from(keep);
        match self.place(name) {
            Some(place) => self.tenants[place].shelf.put(term, keep),
            None => {
                let mut shelf = Shelf::new(alloc);
                let gone = shelf.put(term, keep)?;
                let name = String::from_str(alloc, name)?;
                self.tenants.push(Named { name, shelf })?;
                Ok(gone)
            }
        }
    }

    /// The number after that of the newest dump of the tenant of that name; 0 without a dump.
    pub(crate) fn next(&self, name: &str) -> u64
        ensures { IsAfterNewest (numbers_of self.now name.now) result }
    {
        match newest(self.numbers(name)) {
            Some(newest) => newest.saturating_add(1),
            None => 0,
        }
    }

    /// The numbers of the dumps of the tenant of that name.
    pub fn numbers(&self, name: &str) -> &[u64]
        ensures { result.now ≡ numbers_of self.now name.now }
    {
        match self.place(name) {
            Some(place) => self.tenants[place].shelf.numbers(),
            None => &[],
        }
    }

    /// Whether the tenant of that name has a dump of that term.
    pub fn has(&self, name: &str, term: u64) -> bool
        ensures { result ≡ list_any (λ number. number == term) (numbers_of self.now name.now) }
    {
        self.numbers(name).iter().any(|number| *number == term)
    }

    /// Where the dumps of the tenant of that name are.
    fn place(&self, name: &str) -> Option<usize>
        ensures { result ≡ position (has_name name.now) self.now.tenants.items }
    {
        self.tenants
            .iter()
            .position(|named| named.name.as_str() == name)
    }
}

/// The greatest of some numbers.
fn newest(numbers: &[u64]) -> Option<u64>
    ensures found { IfSome result (λ n. Contains numbers.now n) }
    ensures newest { IfSome result (λ n. EachIndex numbers.now (λ k. slice_index numbers.now k ≤ n)) }
    ensures none { result ≡ None → length numbers.now ≡ 0 }
{
    numbers.iter().copied().max()
}
