// The check of registers that were chosen.
ghost use Rattle.std.specs.Prelude.{IsTrue, ◌≡◌, ◌≢◌, ◌<◌, ◌≤◌, ◌⊎◌, ◌↔◌, ℕ, true, false, [], None, slice_index_or};
ghost use Rattle.std.specs.List.{AllByRecursion};
ghost use Rattle.job_compiler.specs.Colours.{Flows};
ghost use Rattle.job_compiler.specs.Virtual.{instr_of};
ghost use Rattle.register_choice.specs.Choice.{IsColouredAt, IsColouring, Stays, colour_of, listed, live_of};

use crate::uses::{leads_to, reads, writes};
use job_compiler::{VirtualCode, VirtualInstr};

/// Whether registers that were chosen for virtual ones serve as well: `colours` says for each place
/// which register a virtual one has there, and `live` which virtual registers are read later.
pub fn is_coloured(code: &VirtualCode, colours: &[[u8; 256]], live: &[[bool; 256]]) -> bool
    ensures { IsTrue result ↔ IsColouring code.now colours.now live.now }
{
    for (place, instr) in code.instrs().iter().enumerate() {
        if !is_coloured_at(instr, place, colours, live) {
            return false;
        }
    }
    begins(colours_at(colours, 0), row(live, 0))
}

fn is_coloured_at(
    instr: &VirtualInstr,
    place: usize,
    colours: &[[u8; 256]],
    live: &[[bool; 256]],
) -> bool
    requires { place < usize.MAX }
    ensures { IsTrue result ↔ IsColouredAt colours.now live.now place (instr_of instr.now) }
{
    let written = writes(instr);
    let (first, second) = leads_to(instr, place);
    are_live(row(live, place), reads(instr))
        && are_low(colours_at(colours, place + 1), written)
        && flows_on(colours, live, place, written, first)
        && flows_on(colours, live, place, written, second)
}

fn colour(colours: &[u8], u: usize) -> u8
    ensures { result ≡ slice_index_or colours.now u 0 }
{
    match colours.get(u) {
        Some(colour) => *colour,
        None => 0,
    }
}

/// The registers of virtual ones at a place.
pub(crate) fn colours_at<'a>(colours: &'a [[u8; 256]], place: usize) -> &'a [u8]
    ensures { result.now ≡ slice_index_or colours.now place [] }
{
    match colours.get(place) {
        Some(row) => row.as_slice(),
        None => &[],
    }
}

fn row<'a>(live: &'a [[bool; 256]], place: usize) -> &'a [bool]
    ensures { result.now ≡ slice_index_or live.now place [] }
{
    match live.get(place) {
        Some(row) => row.as_slice(),
        None => &[],
    }
}

fn is_live(row: &[bool], u: usize) -> bool
    ensures { result ≡ slice_index_or row.now u false }
{
    match row.get(u) {
        Some(live) => *live,
        None => false,
    }
}

fn are_live(row: &[bool], registers: (Option<u8>, Option<u8>)) -> bool
    ensures { IsTrue result
        ↔ AllByRecursion (λ u. slice_index_or row.now u false ≡ true) (listed registers.0 registers.1) }
{
    match registers {
        (None, None) => true,
        (None, Some(b)) => is_live(row, usize::from(b)),
        (Some(a), None) => is_live(row, usize::from(a)),
        (Some(a), Some(b)) => is_live(row, usize::from(a)) && is_live(row, usize::from(b)),
    }
}

fn is_low(colours: &[u8], d: u8) -> bool
    ensures { IsTrue result ↔ ((d < 256) × (slice_index_or colours.now d 0 < 8)) }
{
    colour(colours, usize::from(d)) < 8
}

fn are_low(colours: &[u8], registers: (Option<u8>, Option<u8>)) -> bool
    ensures { IsTrue result
        ↔ AllByRecursion (λ d. (d < 256) × (slice_index_or colours.now d 0 < 8)) (listed registers.0 registers.1) }
{
    match registers {
        (None, None) => true,
        (None, Some(b)) => is_low(colours, b),
        (Some(a), None) => is_low(colours, a),
        (Some(a), Some(b)) => is_low(colours, a) && is_low(colours, b),
    }
}

// Whether what is read later was read later before and keeps its register, or is written here, and
// nothing that is written here lies on it.
fn flows_on(
    colours: &[[u8; 256]],
    live: &[[bool; 256]],
    place: usize,
    written: (Option<u8>, Option<u8>),
    next: Option<usize>,
) -> bool
    ensures { IsTrue result ↔ AllByRecursion
        (Flows (colour_of colours.now) (live_of live.now) (listed written.0 written.1) place)
        (listed next None) }
{
    match next {
        Some(next) => {
            let from = colours_at(colours, place);
            let to = colours_at(colours, next);
            flows(from, to, row(live, place), row(live, next), written)
        }
        None => true,
    }
}

fn flows(
    from: &[u8],
    to: &[u8],
    here: &[bool],
    next: &[bool],
    written: (Option<u8>, Option<u8>),
) -> bool
    ensures { IsTrue result ↔ ((u : ℕ) → slice_index_or next.now u false ≡ true
        → Stays (λ u. slice_index_or from.now u 0) (λ u. slice_index_or to.now u 0) here.now u
        (listed written.0 written.1)) }
{
    for (u, live) in next.iter().enumerate() {
        if *live && !stays(from, to, here, u, written) {
            return false;
        }
    }
    true
}

fn stays(from: &[u8], to: &[u8], here: &[bool], u: usize, written: (Option<u8>, Option<u8>)) -> bool
    ensures { IsTrue result
        ↔ Stays (λ u. slice_index_or from.now u 0) (λ u. slice_index_or to.now u 0) here.now u
        (listed written.0 written.1) }
{
    let was = is_live(here, u) && colour(to, u) == colour(from, u);
    match written {
        (None, None) => was,
        (None, Some(b)) => (is_same(u, b) || was) && is_apart(to, u, b),
        (Some(a), None) => (is_same(u, a) || was) && is_apart(to, u, a),
        (Some(a), Some(b)) => {
            (is_same(u, a) || is_same(u, b) || was) && is_apart(to, u, a) && is_apart(to, u, b)
        }
    }
}

fn is_same(u: usize, d: u8) -> bool
    ensures { IsTrue result ↔ (u ≡ d) }
{
    u == usize::from(d)
}

// Whether two virtual registers are the same one, or in different registers.
fn is_apart(colours: &[u8], u: usize, d: u8) -> bool
    ensures { IsTrue result ↔ (u ≢ d → slice_index_or colours.now u 0 ≢ slice_index_or colours.now d 0) }
{
    is_same(u, d) || colour(colours, u) != colour(colours, usize::from(d))
}

fn begins(colours: &[u8], first: &[bool]) -> bool
    ensures { IsTrue result ↔ ((u : ℕ) → slice_index_or first.now u false ≡ true
        → ((u < 2) × (slice_index_or colours.now u 0 ≡ u)) ⊎ ((2 ≤ u) × (2 ≤ slice_index_or colours.now u 0))) }
{
    for (u, live) in first.iter().enumerate() {
        if *live && !starts_well(u, colour(colours, u)) {
            return false;
        }
    }
    true
}

fn starts_well(u: usize, colour: u8) -> bool
    ensures { IsTrue result ↔ (((u < 2) × (colour ≡ u)) ⊎ ((2 ≤ u) × (2 ≤ colour))) }
{
    if u < 2 {
        usize::from(colour) == u
    } else {
        colour >= 2
    }
}
