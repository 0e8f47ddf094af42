// Which virtual registers are read later, place by place: what the check then confirms.
ghost use Rattle.std.specs.Prelude.{◌≡◌, ◌<◌, ◌≤◌, ◌⊎◌, ℕ, None, true, false, [], length, map, slice_index_or, vec_capacity};
ghost use Rattle.job_compiler.specs.Colours.{IsAmong};
ghost use Rattle.job_compiler.specs.Virtual.{instr_of};
ghost use Rattle.register_choice.specs.Choice.{live_of, listed};
ghost use Rattle.register_choice.specs.Reasons.{IsLiveAtOne, IsReadHere, IsReadLater};

use crate::uses::{leads_to, reads, writes};
use job_compiler::VirtualInstr;

/// A row for each place: the virtual registers that are read from there on before they are written.
/// There is a reason for each that is in a row; that none is missing, the check confirms.
pub(crate) fn liveness(memory: Vec<[bool; 256]>, instrs: &[VirtualInstr]) -> Vec<[bool; 256]>
    requires empty { memory.items ≡ [] }
    requires room { length instrs.now ≤ vec_capacity memory }
    ensures { (k u : ℕ) → live_of result.items k u ≡ true → IsReadLater (map instr_of instrs.now) k u }
{
    let mut rows = no_rows(memory, instrs.len());
    // each round but the last one adds a register to a row
    for _ in 0..256 * 256 {
        if !grow(&mut rows, instrs) {
            break;
        }
    }
    rows
}

fn no_rows(memory: Vec<[bool; 256]>, count: usize) -> Vec<[bool; 256]>
    requires empty { memory.items ≡ [] }
    requires room { count ≤ vec_capacity memory }
    ensures { (k u : ℕ) → live_of result.items k u ≡ false }
{
    let mut rows = memory;
    for _ in 0..count {
        rows.push(no_row()).unwrap();
    }
    rows
}

// One round, from the last place to the first one; whether a row has grown.
fn grow(rows: &mut [[bool; 256]], instrs: &[VirtualInstr]) -> bool
    requires { (k u : ℕ) → live_of rows.old k u ≡ true → IsReadLater (map instr_of instrs.now) k u }
    ensures { (k u : ℕ) → live_of rows.new k u ≡ true → IsReadLater (map instr_of instrs.now) k u }
{
    let mut grown = false;
    for place in (0..instrs.len()).rev() {
        let row = before(rows, &instrs[place], place);
        if place < rows.len() && rows[place] != row {
            rows[place] = row;
            grown = true;
        }
    }
    grown
}

// What is read later at an instruction, by what is read later where it leads.
fn before(rows: &[[bool; 256]], instr: &VirtualInstr, place: usize) -> [bool; 256]
    requires { place < usize.MAX }
    ensures { (u : ℕ) → slice_index_or result u false ≡ true
        → IsReadHere rows.now place (instr_of instr.now) u }
{
    let (first, second) = leads_to(instr, place);
    let mut row = kept(&after(rows, first, second), writes(instr));
    add(&mut row, reads(instr));
    row
}

// What is read later at one of two places.
fn after(rows: &[[bool; 256]], first: Option<usize>, second: Option<usize>) -> [bool; 256]
    ensures { (u : ℕ) → slice_index_or result u false ≡ true
        → IsLiveAtOne rows.now u (listed first second) }
{
    let mut row = row_at(rows, first);
    let other = row_at(rows, second);
    for u in 0..256 {
        row[u] = row[u] || other[u];
    }
    row
}

fn row_at(rows: &[[bool; 256]], place: Option<usize>) -> [bool; 256]
    ensures { (u : ℕ) → slice_index_or result u false ≡ true → IsLiveAtOne rows.now u (listed place None) }
{
    match place {
        Some(place) => match rows.get(place) {
            Some(row) => *row,
            None => no_row(),
        },
        None => no_row(),
    }
}

#[tactic(auto, using(crate::proofs::Reasons::all_false))]
fn no_row() -> [bool; 256]
    ensures { (u : ℕ) → slice_index_or result u false ≡ false }
{
    [false; 256]
}

fn kept(row: &[bool; 256], written: (Option<u8>, Option<u8>)) -> [bool; 256]
    ensures { (u : ℕ) → slice_index_or result u false ≡ true
        → (slice_index_or row.now u false ≡ true) × (¬ IsAmong u (listed written.0 written.1)) }
{
    let mut kept = *row;
    if let Some(d) = written.0 {
        kept[usize::from(d)] = false;
    }
    if let Some(d) = written.1 {
        kept[usize::from(d)] = false;
    }
    kept
}

fn add(row: &mut [bool; 256], read: (Option<u8>, Option<u8>))
    ensures { (u : ℕ) → slice_index_or row.new u false ≡ true
        → (slice_index_or row.old u false ≡ true) ⊎ IsAmong u (listed read.0 read.1) }
{
    if let Some(u) = read.0 {
        row[usize::from(u)] = true;
    }
    if let Some(u) = read.1 {
        row[usize::from(u)] = true;
    }
}
