// The requests of lines.
ghost use Rattle.std.specs.Prelude.{◌≡◌};
ghost use Rattle.request_reader.specs.Exact.{ExactOrNoMemory};
ghost use Rattle.request_reader.specs.LineAsks.{IsShortText};
ghost use Rattle.world_model.specs.OwnSteps.{request_of};
ghost use Rattle.world_model.specs.World.{is_blank};

use job_language::{Error, Request};
use request_reader::{MAX_REQUEST, read_request, ready};
use std::alloc::Global;

/// Whether a line asks for nothing. One that is too long is not blank, whatever its bytes are.
pub(crate) fn is_blank(text: &[u8]) -> bool
    ensures { result ≡ is_blank text.now }
{
    text.len() <= MAX_REQUEST && request_reader::is_blank(text)
}

/// The request of a line, with its job read. Errors 1 to 4 say why there is none, and error 9 that
/// an allocation failed: only a text of at most 65,536 bytes takes memory.
pub(crate) fn request_of(alloc: Global, text: &[u8]) -> Result<Request, Error>
    ensures { ExactOrNoMemory (λ request. request) (IsShortText text.now) result
        (request_of text.now) }
{
    let asked = read_request(alloc, text)?;
    ready(alloc, asked)
}
