// The leaves of the arena, each with rows in it while rounds of its calls are made.
mod cells;
mod contexts;
mod groups;
mod kinds;
mod nests;
mod pools;
mod regions;
mod rounds;
mod rows;

use crate::stops::Stop;
use crate::words::number_in;
use kinds::{LEAVES, Leaf};
use rows::Rows;

/// How many rounds are made if no word says it.
const FEW: u32 = 100;

/// `LEAF ROWS ROUNDS` makes ROUNDS rounds of a leaf's calls beside ROWS rows, and prints how many calls those
/// are and the sum of what they answered. Without words it makes a few rounds of each leaf.
pub(crate) fn run<R: Print + AllocGlobal>(rt: &R, words: &[&str]) -> Result<(), Stop> {
    match words {
        [] => print_few(rt),
        [leaf, rows, rounds] => {
            let leaf = Leaf::named(leaf).ok_or(Stop::Words)?;
            let rows = Rows::new(number_in(rows)?).ok_or(Stop::Words)?;
            print_rounds(rt, leaf, rows, rounds_in(rounds)?)
        }
        _ => Err(Stop::Words),
    }
}

/// A few rounds of each leaf.
fn print_few<R: Print + AllocGlobal>(rt: &R) -> Result<(), Stop> {
    for number in [2, 256, 4_096] {
        print_each(rt, Rows::new(number).ok_or(Stop::Words)?)?;
    }
    Ok(())
}

fn print_each<R: Print + AllocGlobal>(rt: &R, rows: Rows) -> Result<(), Stop> {
    for leaf in LEAVES {
        print_rounds(rt, leaf, rows, FEW)?;
    }
    Ok(())
}

fn print_rounds<R: Print + AllocGlobal>(
    rt: &R,
    leaf: Leaf,
    rows: Rows,
    rounds: u32,
) -> Result<(), Stop> {
    let ran = leaf.run(rt.alloc(), rows, rounds)?;
    println!(rt;
        "{}, {} rows, {rounds} rounds: {} calls, sum {}",
        leaf.word(),
        leaf.rows(rows),
        ran.calls,
        ran.sum
    )?;
    Ok(())
}

fn rounds_in(word: &str) -> Result<u32, Stop> {
    u32::try_from(number_in(word)?).ok().ok_or(Stop::Words)
}
