// Bytes to a writer that may fail.
ghost use Rattle.std.specs.Prelude.{◌<◌, length, take, IfErr, OnErr, OnOk};
ghost use Rattle.std.specs.Io.KnownBytes.{Appends};

use crate::sinks::Sink;

/// A writer failed, or took none of the bytes that it was given.
#[derive(Clone, Copy, Debug, PartialEq, Eq)]
pub struct WriteFault {
    /// How many of the bytes went out.
    pub sent: usize,
}

/// Writes all of the bytes. It calls `write` until they are out or a call fails, and an interrupted
/// call has failed: none is tried again.
pub fn write_all_of<W: Sink>(writer: &mut W, bytes: &[u8]) -> Result<(), WriteFault>
    ensures ok { OnOk result (Appends (W.contents writer.old) (W.contents writer.new) bytes.now) }
    ensures err { IfErr result (λ fault.
        Appends (W.contents writer.old) (W.contents writer.new) (take fault.sent bytes.now)) }
    ensures short { IfErr result (λ fault. fault.sent < length bytes.now) }
    ensures failed { OnErr result (W.failed writer.new) }
{
    let mut sent = 0;
    while sent < bytes.len() {
        match writer.write_once(&bytes[sent..]) {
            Ok(count) if count > 0 => sent += count,
            Ok(_) | Err(_) => return Err(WriteFault { sent }),
        }
    }
    Ok(())
}
