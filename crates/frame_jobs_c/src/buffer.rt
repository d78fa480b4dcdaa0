ghost use Rattle.std.specs.Prelude.{◌≡◌, ◌⊎◌, ◌≤◌, ◌++◌, ◌≢◌, length, drop};
ghost use Rattle.frame_jobs_c.specs.Logs.{IsFilled, IsShort};
ghost use Rattle.frame_jobs_c.specs.Statuses.{done, short};

use crate::status::{OK, SHORT};

// Bytes are copied to the start of a buffer that has room for them.
fn copy_bytes(bytes: &[u8], buffer: &mut [u8])
    requires { length bytes.now ≤ length buffer.old }
    ensures { buffer.new ≡ bytes.now ++ drop (length bytes.now) buffer.old }
{
    buffer[..bytes.len()].copy_from_slice(bytes);
}

// Bytes are copied to the start of a caller's buffer, where it has room for them; their number is told in any case.
pub(crate) fn fill(bytes: &[u8], buffer: &mut [u8], size: &mut usize) -> u32
    ensures ok { result ≡ done → IsFilled bytes.now size.new buffer.old buffer.new }
    ensures short { result ≡ short → IsShort bytes.now size.new buffer.old }
    ensures untouched { result ≢ done → buffer.new ≡ buffer.old }
    ensures status { (result ≡ done) ⊎ (result ≡ short) }
{
    *size = bytes.len();
    if buffer.len() < bytes.len() {
        return SHORT;
    }
    copy_bytes(bytes, buffer);
    OK
}
