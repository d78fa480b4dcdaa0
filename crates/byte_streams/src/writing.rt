ghost use Rattle.std.specs.Prelude.{◌<◌, length, take, OnOk, IfErr};
ghost use Rattle.std.specs.Io.KnownBytes.{Appends};

use std::io::Write;

/// A write failed: it answered an error, or took no byte.
#[derive(Clone, Copy, Debug, PartialEq, Eq, Drop)]
pub struct WriteFault {
    /// How many bytes were written before.
    pub written: usize,
}

/// Writes all bytes, by as many calls of `write` as it takes.
pub fn write_whole<W: Write>(out: &mut W, bytes: &[u8]) -> Result<(), WriteFault>
    ensures ok { OnOk result (Appends (W.contents out.old) (W.contents out.new) bytes.now) }
    ensures err { IfErr result (λ fault. Appends (W.contents out.old) (W.contents out.new) (take fault.written bytes.now)) }
    ensures not_all { IfErr result (λ fault. fault.written < length bytes.now) }
{
    let mut written = 0;
    'writes: while written < bytes.len() {
        match out.write(&bytes[written..]) {
            Ok(0) => return Err(WriteFault { written }),
            Ok(taken) => written += taken,
            Err(_) => return Err(WriteFault { written }),
        }
    }
    Ok(())
}
