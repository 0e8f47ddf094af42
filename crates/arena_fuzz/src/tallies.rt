// How often each kind of answer was given.
use crate::kinds::kind_of;
use job_language::Answer;
use std::alloc::{AllocError, Global};
use std::collections::{BTreeMap, btree_map};

/// How many steps were taken, and how often each kind of answer was given.
#[derive(Drop)]
pub(crate) struct Tally {
    steps: u64,
    counts: BTreeMap<&'static str, u64>,
}

impl Tally {
    /// No step yet.
    pub(crate) fn new(alloc: Global) -> Tally {
        Tally {
            steps: 0,
            counts: BTreeMap::new(alloc),
        }
    }

    /// Counts a step by its answer.
    pub(crate) fn add(&mut self, answer: &Answer) -> Result<(), AllocError> {
        self.steps = self.steps.wrapping_add(1);
        let count = self.counts.entry(kind_of(answer))?.or_insert(0);
        *count = count.wrapping_add(1);
        Ok(())
    }

    /// How many steps were taken.
    pub(crate) fn steps(&self) -> u64 {
        self.steps
    }

    /// Each kind of answer with how often it was given, by its name.
    pub(crate) fn counts(&self) -> btree_map::Iter<'_, &'static str, u64> {
        self.counts.iter()
    }
}
