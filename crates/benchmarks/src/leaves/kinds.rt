// The leaves that are measured.
use crate::leaves::cells::TenantCells;
use crate::leaves::contexts::BoundContexts;
use crate::leaves::groups::FrameGroups;
use crate::leaves::nests::{MOST_NESTED, NestedRows};
use crate::leaves::pools::WaitingRows;
use crate::leaves::regions::EnteredRows;
use crate::leaves::rounds::{Ran, run};
use crate::leaves::rows::Rows;
use std::alloc::{AllocError, Global};

/// A leaf of the arena, with the rows that are in it.
#[derive(Clone, Copy)]
pub(crate) enum Leaf {
    /// `ready_pool`, with rows outside all regions.
    Pool,
    /// `ready_pool`, with rows in one region.
    PoolRegion,
    /// `cancel_context`.
    Contexts,
    /// `region_tag`.
    Regions,
    /// `nest_stack`.
    Nests,
    /// `task_group`.
    Groups,
    /// `thread_cells`.
    Cells,
}

/// All of them.
pub(crate) const LEAVES: [Leaf; 7] = [
    Leaf::Pool,
    Leaf::PoolRegion,
    Leaf::Contexts,
    Leaf::Regions,
    Leaf::Nests,
    Leaf::Groups,
    Leaf::Cells,
];

impl Leaf {
    /// The leaf of that word.
    pub(crate) fn named(word: &str) -> Option<Leaf> {
        LEAVES.iter().copied().find(|leaf| leaf.word() == word)
    }

    /// Its word.
    pub(crate) fn word(self) -> &'static str {
        match self {
            Leaf::Pool => "pool",
            Leaf::PoolRegion => "pool_region",
            Leaf::Contexts => "contexts",
            Leaf::Regions => "regions",
            Leaf::Nests => "nests",
            Leaf::Groups => "groups",
            Leaf::Cells => "cells",
        }
    }

    /// Makes the leaf with these rows, and then `rounds` rounds of its calls.
    pub(crate) fn run(self, alloc: Global, rows: Rows, rounds: u32) -> Result<Ran, AllocError> {
        Ok(match self {
            Leaf::Pool => run(WaitingRows::outside(alloc, rows)?, rounds),
            Leaf::PoolRegion => run(WaitingRows::in_region(alloc, rows)?, rounds),
            Leaf::Contexts => run(BoundContexts::new(alloc, rows)?, rounds),
            Leaf::Regions => run(EnteredRows::new(alloc, rows)?, rounds),
            Leaf::Nests => run(NestedRows::new(alloc, rows)?, rounds),
            Leaf::Groups => run(FrameGroups::new(), rounds),
            Leaf::Cells => run(TenantCells::new(), rounds),
        })
    }

    /// How many of these rows are in the leaf while a round is made.
    pub(crate) fn rows(self, rows: Rows) -> usize {
        match self {
            Leaf::Groups | Leaf::Cells => 0,
            Leaf::Nests => rows.number().min(MOST_NESTED),
            _ => rows.number(),
        }
    }
}
