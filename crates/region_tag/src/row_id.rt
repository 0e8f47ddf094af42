// How a row is named.

/// A row, by its number and by its place among the open rows of its tenant. Numbers are from 1 in
/// order of making and are never used again. Places are from 0 and below the tenant's limit of open
/// rows; no two open rows have the same place, and a place is used again after its row has ended.
#[derive(Clone, Copy, Debug, PartialEq, Eq)]
pub struct RowId {
    pub number: u64,
    pub place: usize,
}
