// The lines of moves, which most entries of a history are.
ghost use Rattle.std.specs.Prelude.{◌≡◌, ◌++◌, IfOk, OnOk, codes, decimal, true, false};
ghost use Rattle.dump_lines.specs.Dumps.{HasLine, entry_text};
ghost use Rattle.part_writer.specs.Moves.{advance_text, arrived_text, nested_text};

use itoa::Buffer;
use job_language::{Answer, Came, Entry, Moved, Step};
use std::alloc::AllocError;

/// Adds the line of an entry if that is a move of a slot, and says whether it is.
#[tactic(auto, using(crate::proofs::MoveTexts::ran, crate::proofs::MoveTexts::freed, crate::proofs::MoveTexts::nested, crate::proofs::MoveTexts::arrived))]
pub(crate) fn add_move(text: &mut Vec<u8>, entry: &Entry) -> Result<bool, AllocError>
    ensures moved { IfOk result (λ is_move. is_move ≡ true
        → text.new.items ≡ text.old.items ++ entry_text entry.now) }
    ensures line { IfOk result (λ is_move. is_move ≡ true → HasLine entry.now) }
    ensures other { IfOk result (λ is_move. is_move ≡ false → text.new ≡ text.old) }
{
    match (&entry.step, entry.answer) {
        (Step::Advance(slot), Answer::Moved(Moved::Ran)) => {
            add_advance(text, b"{\"moved\":\"ran\",\"slot\":", *slot)?;
        }
        (Step::Advance(slot), Answer::Moved(Moved::Freed)) => {
            add_advance(text, b"{\"moved\":\"freed\",\"slot\":", *slot)?;
        }
        (Step::Advance(slot), Answer::Moved(Moved::Nested(row))) => add_nested(text, row, *slot)?,
        (Step::Arrive(slot), Answer::Came(Came::At(row))) => add_arrived(text, row, *slot)?,
        _ => return Ok(false),
    }
    Ok(true)
}

/// Adds what ends the line of an advance of a slot, behind what is before its number.
#[tactic(auto, using(crate::proofs::MoveTexts::three))]
fn add_advance(text: &mut Vec<u8>, before: &[u8], slot: u8) -> Result<(), AllocError>
    ensures { OnOk result (text.new.items ≡ text.old.items ++ advance_text before.now slot) }
{
    add_number(text, before, u64::from(slot))?;
    text.extend_from_slice(b",\"step\":\"advance\"}\n")?;
    Ok(())
}

/// Adds the number of a slot, and what is behind it.
#[tactic(auto, using(crate::proofs::MoveTexts::three))]
fn add_slot(text: &mut Vec<u8>, slot: u8, behind: &[u8]) -> Result<(), AllocError>
    ensures { OnOk result (text.new.items
        ≡ text.old.items ++ (codes ",\"slot\":" ++ decimal slot ++ behind.now)) }
{
    add_number(text, b",\"slot\":", u64::from(slot))?;
    text.extend_from_slice(behind)?;
    Ok(())
}

/// Adds the line of an advance that put a row on its slot.
fn add_nested(text: &mut Vec<u8>, row: u64, slot: u8) -> Result<(), AllocError>
    ensures { OnOk result (text.new.items ≡ text.old.items ++ nested_text row slot) }
{
    add_number(text, b"{\"moved\":\"nested\",\"row\":", row)?;
    add_advance(text, b",\"slot\":", slot)?;
    Ok(())
}

/// Adds the line of an arrival.
fn add_arrived(text: &mut Vec<u8>, row: u64, slot: u8) -> Result<(), AllocError>
    ensures { OnOk result (text.new.items ≡ text.old.items ++ arrived_text row slot) }
{
    add_number(text, b"{\"moved\":\"arrived\",\"row\":", row)?;
    add_slot(text, slot, b",\"step\":\"arrive\"}\n")?;
    Ok(())
}

/// Adds a number, behind what is before it.
fn add_number(text: &mut Vec<u8>, before: &[u8], number: u64) -> Result<(), AllocError>
    ensures { OnOk result (text.new.items ≡ text.old.items ++ before.now ++ decimal number) }
{
    let mut buffer = Buffer::new();
    text.extend_from_slice(before)?;
    text.extend_from_slice(buffer.format(number).as_bytes())?;
    Ok(())
}
