// Where the first fault of a level or a script lies, and why it is one.
ghost use Rattle.std.specs.Prelude.{◌≡◌, ◌≢◌, ◌⊎◌, List, ℕ, IfOk, IsSome};
ghost use Rattle.level_text.specs.Games.{spelled_game};
ghost use Rattle.btworld_c.specs.Buffers.{IsFilled, IsShort};
ghost use Rattle.btworld_c.specs.Explained.{IsExplained};
ghost use Rattle.btworld_c.specs.Statuses.{done, short, no_memory};

use crate::buffer::fill;
use crate::status::NO_MEMORY;
use fault_reasons::{first_reason, push_reason};
use std::alloc::{AllocError, Global};

fn explained(alloc: Global, level: &[u8], script: &[u8]) -> Result<Vec<u8>, AllocError>
    ensures { IfOk result (λ text. IsExplained level.now script.now text.items) }
{
    let mut text = Vec::new(alloc);
    let Some(reason) = first_reason(alloc, level, script)? else {
        return Ok(text);
    };
    push_reason(&mut text, &reason)?;
    Ok(text)
}

/// Where the first fault of a level or a script lies, and why it is one, at the start of a buffer, and its length in bytes: what
/// `btworld explain` writes from the number of the fault's line on, but for the last line feed. The length is 0 where there is no
/// fault. Where the buffer is too short the status is 5, and the length is told. Where it is not 0 the buffer is as it was. It takes
/// as long as `first_reason`.
#[unsafe(no_mangle)]
pub extern "C" fn btworld_explain(
    alloc: Global,
    level: &[u8],
    script: &[u8],
    text: &mut [u8],
    size: &mut usize,
) -> u32
    ensures ok { result ≡ done → (told : List ℕ) × IsExplained level.now script.now told × IsFilled told size.new text.old text.new }
    ensures short { result ≡ short → (told : List ℕ) × IsExplained level.now script.now told × IsShort told size.new text.old }
    ensures faultless { result ≡ done → size.new ≡ 0 → IsSome (spelled_game level.now script.now) }
    ensures untouched { result ≢ done → text.new ≡ text.old }
    ensures size { result ≢ done → result ≢ short → size.new ≡ size.old }
    ensures status { (result ≡ done) ⊎ ((result ≡ short) ⊎ (result ≡ no_memory)) }
{
    match explained(alloc, level, script) {
        Ok(told) => fill(&told, text, size),
        Err(_) => NO_MEMORY,
    }
}
