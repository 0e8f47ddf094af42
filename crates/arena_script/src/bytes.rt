// All the bytes that a reader has.
ghost use Rattle.std.specs.Prelude.{◌≡◌, ◌<◌, Err, IfErr, IfOk, IsSome, Some, vec_len};
ghost use Rattle.request_reader.specs.Calls.{AreCalls};
ghost use Rattle.request_reader.specs.declared.turns.TheConstants.{MAX_TURNS};
ghost use Rattle.arena_script.specs.Faults.{HasCause, IsLost};
ghost use Rattle.arena_script.specs.ReadBytes.{ComesOn};

use crate::ends::ScriptEnd;
use request_reader::{MAX_TURNS, Source};
use std::alloc::Global;
use std::io::ErrorKind;

/// How many bytes are asked for at once.
const ROOM: usize = 65_536;

/// Reads to the end of a reader, which is called 1,048,576 times at most. An interrupted call counts,
/// and is tried again.
pub(crate) fn read_all<R: Source>(alloc: Global, reader: &mut R) -> Result<Vec<u8>, ScriptEnd>
    ensures bytes { IfOk result (λ bytes. IsSome (R.remaining reader.old)
        → R.remaining reader.old ≡ Some bytes.items) }
    ensures lost { IfErr result IsLost }
    ensures cause { IfErr result (HasCause (R.failed reader.new)
        (AreCalls R.called MAX_TURNS 0 reader.old reader.new) ⊥) }
{
    let mut room = Vec::with_capacity(alloc, ROOM)?;
    room.resize(ROOM, 0)?;
    let mut bytes = Vec::new(alloc);
    let mut turns = MAX_TURNS;
    'turns: while turns > 0 {
        turns -= 1;
        if !read_more(reader, &mut room, &mut bytes)? {
            return Ok(bytes);
        }
    }
    Err(ScriptEnd::Device)
}

/// Calls a reader once, and adds what came. It says whether the reader may have more.
fn read_more<R: Source>(
    reader: &mut R,
    room: &mut Vec<u8>,
    bytes: &mut Vec<u8>,
) -> Result<bool, ScriptEnd>
    requires { 0 < vec_len room.old }
    ensures room { vec_len room.new ≡ vec_len room.old }
    ensures comes { IfOk result (ComesOn (R.remaining reader.old) (R.remaining reader.new)
        bytes.old.items bytes.new.items) }
    ensures called { R.called reader.old reader.new }
    ensures failed { result ≡ Err ScriptEnd.Device → R.failed reader.new }
    ensures lost { IfErr result IsLost }
{
    match reader.read_once(room.as_mut_slice()) {
        Ok(count) => {
            bytes.extend_from_slice(&room.as_slice()[..count])?;
            Ok(count > 0)
        }
        Err(fault) if fault.kind() == ErrorKind::Interrupted => Ok(true),
        Err(_) => Err(ScriptEnd::Device),
    }
}
