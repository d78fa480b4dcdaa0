// The line of a level's or a script's first fault.
ghost use Rattle.std.specs.Prelude.{◌≡◌, ◌≢◌, ◌⊎◌, List, ℕ, IsOk, IfSome, IfNone};
ghost use Rattle.level_text.specs.Levels.{spelled};
ghost use Rattle.level_text.specs.Scripts.{script_of};
ghost use Rattle.command_line.specs.declared.program_fault.Fault.TheVariants.{OutOfMemory};
ghost use Rattle.btworld_c.specs.Buffers.{IsFilled, IsShort};
ghost use Rattle.btworld_c.specs.Statuses.{done, short, no_memory};

use crate::buffer::fill;
use crate::status::NO_MEMORY;
use command_line::Fault;
use level_text::{read_level, read_script};
use std::alloc::Global;

// None where the bytes spell a level and a script.
fn first_fault(alloc: Global, level: &[u8], script: &[u8]) -> Option<Fault>
    ensures fault { IsOk (spelled level.now) → IsOk (script_of script.now) → IfSome result (λ fault. fault ≡ OutOfMemory) }
    ensures none { IfNone result (IsOk (spelled level.now) × IsOk (script_of script.now)) }
{
    if let Err(fault) = read_level(alloc, level) {
        return Some(Fault::from(fault));
    }
    match read_script(alloc, script) {
        Ok(_) => None,
        Err(fault) => Some(Fault::from(fault)),
    }
}

/// The line that the program writes of a level's or a script's first fault, with no line feed, at the start of a buffer, and
/// its length in bytes: 0 where there is no fault. The line may have line feeds of its own, in a tree's name. Where the buffer
/// is too short the status is 5, and the length is told. Where it is not 0 the buffer is as it was.
#[unsafe(no_mangle)]
pub extern "C" fn btworld_fault_text(
    alloc: Global,
    level: &[u8],
    script: &[u8],
    text: &mut [u8],
    size: &mut usize,
) -> u32
    ensures ok { result ≡ done → (line : List ℕ) × IsFilled line size.new text.old text.new }
    ensures short { result ≡ short → (line : List ℕ) × IsShort line size.new text.old }
    ensures none { IsOk (spelled level.now) → IsOk (script_of script.now) → result ≢ no_memory → size.new ≡ 0 }
    ensures faultless { result ≡ done → size.new ≡ 0 → IsOk (spelled level.now) × IsOk (script_of script.now) }
    ensures untouched { result ≢ done → text.new ≡ text.old }
    ensures size { result ≢ done → result ≢ short → size.new ≡ size.old }
    ensures status { (result ≡ done) ⊎ ((result ≡ short) ⊎ (result ≡ no_memory)) }
{
    match first_fault(alloc, level, script) {
        None => fill(b"", text, size),
        Some(Fault::OutOfMemory) => NO_MEMORY,
        Some(fault) => match format!(in alloc; "{fault}") {
            Ok(line) if !line.is_empty() => fill(line.as_bytes(), text, size),
            // No line of a fault is empty: that would tell of none.
            _ => NO_MEMORY,
        },
    }
}
