ghost use Rattle.std.specs.Prelude.{◌≡◌, ◌++◌, OnOk};
ghost use Rattle.byte_streams.specs.Hex.{hex};
ghost use Rattle.commands.specs.Texts.{named_line};

use byte_streams::push_hex;
use std::alloc::AllocError;

/// Appends a line that begins with these words, and names a level and a script by their digests.
pub(crate) fn push_named_line(
    text: &mut Vec<u8>,
    words: &[u8],
    level: u64,
    script: u64,
) -> Result<(), AllocError>
    ensures { OnOk result (text.new.items ≡ text.old.items ++ named_line words.now (hex 16 level) (hex 16 script)) }
{
    push_hex(text, words, level)?;
    push_hex(text, b" script ", script)?;
    text.extend_from_slice(b"\n")
}
