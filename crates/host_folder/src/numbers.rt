// The numbers of a tenant's terms and jobs, on the disk.
ghost use Rattle.std.specs.Prelude.{◌≡◌, IfOk, string_bytes};
ghost use Rattle.host_folder.specs.Numbers.{span_line, IsSpanOf};

use crate::words::number_before;
use std::alloc::{AllocError, Global};
use std::str;
use term_life::{MOST_JOBS, Span};

/// The line that says which is the newest term, after which number its jobs are numbered, and how many it may have.
pub(crate) fn span_line(alloc: Global, span: Span) -> Result<String, AllocError>
    ensures { IfOk result (λ line. string_bytes line ≡ span_line span) }
{
    let Span { number, base, room } = span;
    format!(in alloc; "{number} {base} {room}\n")
}

/// The numbers whose line it is. None if it is the line of none.
pub(crate) fn span_in(line: &[u8]) -> Option<Span>
    ensures { IsSpanOf line.now result }
{
    let text = str::from_utf8(line).ok()?;
    let (number, rest) = number_before(text, ' ')?;
    let (base, rest) = number_before(rest, ' ')?;
    let (room, rest) = number_before(rest, '\n')?;
    if rest.is_empty() && base <= MOST_JOBS && room <= MOST_JOBS - base {
        Some(Span { number, base, room })
    } else {
        None
    }
}
