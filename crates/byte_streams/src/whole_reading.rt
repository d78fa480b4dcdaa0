ghost use Rattle.std.specs.Prelude.{◌≡◌, IfOk, IfSome};
ghost use Rattle.byte_streams.specs.declared.whole_reading.ReadFault.TheVariants.{OutOfMemory};

use std::alloc::{AllocError, Global};
use std::io::Read;

/// Why a reader was not read to its end.
#[derive(Clone, Copy, Debug, PartialEq, Eq, Drop)]
pub enum ReadFault {
    OutOfMemory,
    /// A read answered an error, or 2^64 - 1 reads came to no end.
    Read,
}

impl From<AllocError> for ReadFault {
    ghost from_gives = { λ _ fault. fault ≡ OutOfMemory };

    fn from(_: AllocError) -> ReadFault {
        ReadFault::OutOfMemory
    }
}

/// All bytes that a reader has left, by as many calls of `read` as it takes, at most 2^64 - 1.
pub fn read_whole<R: Read>(alloc: Global, input: &mut R) -> Result<Vec<u8>, ReadFault>
    ensures { IfOk result (λ v. IfSome (R.remaining input.old) (λ bytes. v.items ≡ bytes)) }
{
    let mut bytes = Vec::new(alloc);
    let mut buffer = [0u8; 4096];
    'reads: for _ in 0..u64::MAX {
        match input.read(&mut buffer) {
            Ok(0) => return Ok(bytes),
            Ok(count) => bytes.extend_from_slice(&buffer[..count])?,
            Err(_) => return Err(ReadFault::Read),
        }
    }
    Err(ReadFault::Read)
}
