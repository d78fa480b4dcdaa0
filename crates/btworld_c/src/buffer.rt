ghost use Rattle.std.specs.Prelude.{◌≡◌, ◌≢◌, ◌⊎◌, ◌≤◌, ◌++◌, length, drop};
ghost use Rattle.btworld_c.specs.Buffers.{IsFilled, IsShort};
ghost use Rattle.btworld_c.specs.Statuses.{done, short};

use crate::status::{OK, SHORT};

// Items are copied to the start of a buffer that has room for them.
fn copy<T: Copy>(items: &[T], buffer: &mut [T])
    requires { length items.now ≤ length buffer.old }
    ensures { buffer.new ≡ items.now ++ drop (length items.now) buffer.old }
{
    buffer[..items.len()].copy_from_slice(items);
}

// Items are copied to the start of a caller's buffer, where it has room for them; their number is told in any case.
pub(crate) fn fill<T: Copy>(items: &[T], buffer: &mut [T], size: &mut usize) -> u32
    ensures ok { result ≡ done → IsFilled items.now size.new buffer.old buffer.new }
    ensures short { result ≡ short → IsShort items.now size.new buffer.old }
    ensures untouched { result ≢ done → buffer.new ≡ buffer.old }
    ensures status { (result ≡ done) ⊎ (result ≡ short) }
{
    *size = items.len();
    if buffer.len() < items.len() {
        return SHORT;
    }
    copy(items, buffer);
    OK
}
