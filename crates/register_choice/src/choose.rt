// A choice of registers, one live range after another: what the check then confirms.
ghost use Rattle.std.specs.Prelude.{◌≡◌, ◌+◌, ◌≤◌, [], length, vec_capacity};

use crate::uses::{leads_to, reads, writes};
use job_compiler::VirtualInstr;
use job_language::REGISTERS;

/// The colour of a virtual register that has none at a place.
const NONE: u8 = 255;

/// That of the live range for which one is chosen.
const THIS: u8 = 254;

/// The register of each virtual one at each place, in memory that is there for it. Places where it is
/// read later make a live range, as far as it is not written between them. Each range has one
/// register, the lowest one that is free at all its places; the arguments begin in the first two.
pub(crate) fn choose(
    memory: Vec<[u8; 256]>,
    instrs: &[VirtualInstr],
    live: &[[bool; 256]],
) -> Vec<[u8; 256]>
    requires empty { memory.items ≡ [] }
    requires room { length instrs.now + 1 ≤ vec_capacity memory }
{
    let mut colours = no_colours(memory, instrs.len() + 1);
    let last = last_register(instrs);
    for place in 0..instrs.len() + 1 {
        choose_at(&mut colours, instrs, live, place, last);
    }
    colours
}

// The highest virtual register that some instruction reads or writes, or that of the second argument.
fn last_register(instrs: &[VirtualInstr]) -> u8 {
    let mut last = 1;
    for instr in instrs.iter() {
        let read = reads(instr);
        let written = writes(instr);
        for register in [read.0, read.1, written.0, written.1] {
            if let Some(u) = register {
                last = last.max(u);
            }
        }
    }
    last
}

fn no_colours(memory: Vec<[u8; 256]>, count: usize) -> Vec<[u8; 256]>
    requires empty { memory.items ≡ [] }
    requires room { count ≤ vec_capacity memory }
{
    let mut colours = memory;
    for _ in 0..count {
        colours.push([NONE; 256]).unwrap();
    }
    colours
}

// Chooses for each virtual register that is in use at a place and has no register there.
fn choose_at(
    colours: &mut [[u8; 256]],
    instrs: &[VirtualInstr],
    live: &[[bool; 256]],
    place: usize,
    last: u8,
) {
    let used = used_at(instrs, live, place);
    for u in 0..=last {
        if used[usize::from(u)] && colour_at(colours, place, u) == NONE {
            set_colour(colours, place, u, THIS);
            grow(colours, instrs, live, u);
            let colour = free(colours, u, last);
            give_colour(colours, u, colour);
        }
    }
}

// What is read later at a place, or written right before it.
fn used_at(instrs: &[VirtualInstr], live: &[[bool; 256]], place: usize) -> [bool; 256] {
    let mut used = match live.get(place) {
        Some(row) => *row,
        None => [false; 256],
    };
    if let Some(before) = place.checked_sub(1) {
        if let Some(instr) = instrs.get(before) {
            let (first, second) = writes(instr);
            use_also(&mut used, first);
            use_also(&mut used, second);
        }
    }
    used
}

fn use_also(used: &mut [bool; 256], written: Option<u8>) {
    if let Some(d) = written {
        used[usize::from(d)] = true;
    }
}

// Takes all places into the range that belong to it.
fn grow(colours: &mut [[u8; 256]], instrs: &[VirtualInstr], live: &[[bool; 256]], u: u8) {
    // each round but the last one adds a place
    for _ in 0..256 {
        if !spread(colours, instrs, live, u) {
            break;
        }
    }
}

fn give_colour(colours: &mut [[u8; 256]], u: u8, colour: u8) {
    for row in colours.iter_mut() {
        if row[usize::from(u)] == THIS {
            row[usize::from(u)] = colour;
        }
    }
}

// One round; whether the range has grown.
fn spread(colours: &mut [[u8; 256]], instrs: &[VirtualInstr], live: &[[bool; 256]], u: u8) -> bool {
    let mut grown = false;
    for (place, instr) in instrs.iter().enumerate() {
        let written = writes(instr);
        if written.0 != Some(u) && written.1 != Some(u) {
            let (first, second) = leads_to(instr, place);
            let is_joined = join(colours, live, place, first, u);
            let is_other_joined = join(colours, live, place, second, u);
            grown = grown || is_joined || is_other_joined;
        }
    }
    grown
}

// Takes a place and the next one into the range, if one of them is in it; whether the other was not.
fn join(
    colours: &mut [[u8; 256]],
    live: &[[bool; 256]],
    place: usize,
    next: Option<usize>,
    u: u8,
) -> bool {
    let Some(next) = next else {
        return false;
    };
    if !is_live(live, next, u) {
        return false;
    }
    let is_here = colour_at(colours, place, u) == THIS;
    let is_there = colour_at(colours, next, u) == THIS;
    if is_here != is_there {
        set_colour(colours, place, u, THIS);
        set_colour(colours, next, u, THIS);
    }
    is_here != is_there
}

fn is_live(live: &[[bool; 256]], place: usize, u: u8) -> bool {
    live.get(place).is_some_and(|row| row[usize::from(u)])
}

fn colour_at(colours: &[[u8; 256]], place: usize, u: u8) -> u8 {
    match colours.get(place) {
        Some(row) => row[usize::from(u)],
        None => NONE,
    }
}

fn set_colour(colours: &mut [[u8; 256]], place: usize, u: u8, colour: u8) {
    if let Some(row) = colours.get_mut(place) {
        row[usize::from(u)] = colour;
    }
}

// The lowest register that is free at all places of the range; an argument's own at the beginning.
fn free(colours: &[[u8; 256]], u: u8, last: u8) -> u8 {
    let begins = colour_at(colours, 0, u) == THIS;
    if begins && u < 2 {
        return u;
    }
    let taken = taken(colours, u, last);
    for (number, is_taken) in taken.iter().enumerate() {
        if !*is_taken && (number >= 2 || !begins) {
            return number as u8;
        }
    }
    NONE
}

// The registers that others have at places of the range.
fn taken(colours: &[[u8; 256]], u: u8, last: u8) -> [bool; REGISTERS] {
    let mut taken = [false; REGISTERS];
    for row in colours.iter() {
        if row[usize::from(u)] == THIS {
            take_all(&mut taken, &row[..=usize::from(last)]);
        }
    }
    taken
}

fn take_all(taken: &mut [bool; REGISTERS], row: &[u8]) {
    for colour in row.iter() {
        let number = usize::from(*colour);
        if number < REGISTERS {
            taken[number] = true;
        }
    }
}
