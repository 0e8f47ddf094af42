// The finite map from open rows to their regions.
ghost use Rattle.std.specs.Prelude.{IfSome, ◌≡◌, ◌<◌, ◌≤◌, None, Some, IsNone, IfOk, length, replicate, slice_index_or, slice_set};
ghost use Rattle.std.specs.Option.{ForSome};
ghost use Rattle.region_tag.specs.Region.{IsEntered, region_of, is_within, tagged, around, get, IsNested};

use crate::row_id::RowId;
use std::alloc::{AllocError, Global};
use std::marker::Model;

/// What an open row is tagged with.
#[derive(Clone, Copy, Debug, PartialEq, Eq)]
pub struct Tagged {
    /// The row's number.
    pub number: u64,
    /// The region that the row is in, which is the row itself if it is a region; `None` outside all
    /// regions.
    pub tag: Option<RowId>,
    /// The region around the row, if the row is a region inside another one.
    pub around: Option<RowId>,
}

/// The open rows of a tenant, each with its region.
#[derive(Drop)]
pub struct Regions {
    rows: Vec<Option<Tagged>>,
}

impl Model for Regions {
    ghost use Rattle.region_tag.specs.Region.{Table, IsNested};

    ghost Value = { Table };

    ghost view = { λ r. r.rows.items };

    ghost invariant = { λ r. IsNested r.rows.items };
}

impl Regions {
    /// An empty map, with room for as many rows as may be open.
    pub fn new(alloc: Global, rows: usize) -> Result<Regions, AllocError>
        ensures { IfOk result (λ regions. regions ≡ replicate rows None) }
    {
        let rows = vec![in alloc; None; rows]?;
        Ok(Regions { rows })
    }

    /// Enters a row that has been made: `outer` is the tag of its maker, `None` if it has no maker.
    pub fn enter(&mut self, row: RowId, outer: Option<RowId>, is_region: bool)
        requires place { row.place < length self.old }
        requires free { IsNone (slice_index_or self.old row.place None) }
        requires earlier { ForSome outer (λ region. region.number < row.number) }
        ensures { self.new ≡ slice_set self.old row.place (Some (tagged row outer is_region)) }
    {
        let number = row.number;
        let tagged = if is_region {
            Tagged {
                number,
                tag: Some(row),
                around: outer,
            }
        } else {
            Tagged {
                number,
                tag: outer,
                around: None,
            }
        };
        self.rows[row.place] = Some(tagged);
    }

    /// Takes out a row that has ended.
    pub fn exit(&mut self, row: RowId)
        requires { IsEntered self.old row }
        ensures { self.new ≡ slice_set self.old row.place None }
    {
        self.rows[row.place] = None;
    }

    /// The region that a row is in; `None` outside all regions, and for a row that was not entered.
    pub fn region_of(&self, row: RowId) -> Option<RowId>
        ensures value { result ≡ region_of self.now row }
        ensures nested { IsNested self.now }
    {
        // Proof hint: brings the type's invariant into scope for the clause `nested`.
        let _ = &self.rows;
        self.get(row)?.tag
    }

    /// Whether the region of a tag is another one or inside it.
    #[tactic(auto, using(crate::proofs::Around::goes_on))]
    pub fn within(&self, tag: Option<RowId>, outer: RowId) -> bool
        ensures { result ≡ is_within self.now tag outer }
    {
        let mut at = tag;
        while let Some(region) = at {
            if region == outer {
                return true;
            }
            at = self.around(region);
        }
        false
    }

    /// The region around a region.
    #[tactic(auto, using(crate::proofs::Around::around_earlier))]
    fn around(&self, region: RowId) -> Option<RowId>
        ensures value { result ≡ around self.now region }
        ensures nested { IsNested self.now }
        ensures earlier { IfSome result (λ outer. outer.number < region.number) }
    {
        // Proof hint: brings the type's invariant into scope for the clause `nested`.
        let _ = &self.rows;
        self.get(region)?.around
    }

    /// What a row was entered with.
    fn get(&self, row: RowId) -> Option<Tagged>
        ensures { result ≡ get self.now row }
    {
        if row.place >= self.rows.len() {
            return None;
        }
        let tagged = self.rows[row.place]?;
        if tagged.number == row.number {
            Some(tagged)
        } else {
            None
        }
    }
}
