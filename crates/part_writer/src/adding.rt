// Bytes and numbers that are added to a text.
ghost use Rattle.std.specs.Prelude.{◌++◌, OnOk, decimal};
ghost use Rattle.std.specs.Fmt.{signed_decimal};
ghost use Rattle.serde_json.specs.Written.{comma_if};
ghost use Rattle.part_writer.specs.Added.{Adds};

use itoa::Buffer;
use std::alloc::AllocError;

/// Adds bytes.
pub(crate) fn add_bytes(text: &mut Vec<u8>, bytes: &[u8]) -> Result<(), AllocError>
    ensures { OnOk result (Adds text.old.items text.new.items (λ rest. bytes.now ++ rest)) }
{
    text.extend_from_slice(bytes)
}

/// Adds a number, behind what is before it.
pub(crate) fn add_number(text: &mut Vec<u8>, before: &[u8], number: u64) -> Result<(), AllocError>
    ensures { OnOk result (Adds text.old.items text.new.items (λ rest. before.now ++ (decimal number ++ rest))) }
{
    add_bytes(text, before)?;
    add_bytes(text, Buffer::new().format(number).as_bytes())
}

/// Adds a number that may be below 0, behind what is before it.
pub(crate) fn add_signed(text: &mut Vec<u8>, before: &[u8], number: i64) -> Result<(), AllocError>
    ensures { OnOk result (Adds text.old.items text.new.items (λ rest. before.now ++ (signed_decimal number ++ rest))) }
{
    add_bytes(text, before)?;
    add_bytes(text, Buffer::new().format(number).as_bytes())
}

/// Adds a comma, if something stands before.
pub(crate) fn add_comma(text: &mut Vec<u8>, is_later: bool) -> Result<(), AllocError>
    ensures { OnOk result (Adds text.old.items text.new.items (λ rest. comma_if is_later ++ rest)) }
{
    if is_later {
        text.push(b',')?;
    }
    Ok(())
}
