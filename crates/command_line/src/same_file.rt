// Outputs that are inputs: what is read may not be overwritten.
ghost use Rattle.std.specs.Prelude.{IfErr};
ghost use Rattle.command_line.specs.Faults.{IsSameFileFault};

use crate::program_fault::Fault;
use std::alloc::{AllocError, Global};
use std::io::ErrorKind;
use std::rt::Files;

/// Whether both paths lead to one plain file, by symbolic links too. A file of two names (a hard link) is not known: no call here
/// tells its number. Where the output leads nowhere, or can't be followed, it is another file.
fn is_same_file<H: Files>(
    rt: &H,
    alloc: Global,
    output: &str,
    input: &str,
) -> Result<bool, AllocError> {
    let Ok(found) = rt.metadata(input) else {
        return Ok(false);
    };
    if !found.is_file() {
        return Ok(false);
    }
    let output = match rt.canonicalize(alloc, output) {
        Ok(path) => path.into_string(),
        Err(error) => return if error.kind() == ErrorKind::OutOfMemory {
            Err(AllocError)
        } else {
            Ok(false)
        },
    };
    match rt.canonicalize(alloc, input) {
        Ok(path) => Ok(path.into_string() == output),
        Err(error) => if error.kind() == ErrorKind::OutOfMemory {
            Err(AllocError)
        } else {
            Ok(false)
        },
    }
}

/// Refuses an output that is this input. Nothing is opened.
pub fn refuse_same_file<H: Files>(
    rt: &H,
    alloc: Global,
    output: &str,
    input: &str,
) -> Result<(), Fault>
    ensures { IfErr result (IsSameFileFault output.now input.now) }
{
    if is_same_file(rt, alloc, output, input)? {
        return Err(Fault::SameFile {
            output: String::from_str(alloc, output)?,
            input: String::from_str(alloc, input)?,
        });
    }
    Ok(())
}

/// Refuses an output that is the level or the script, where there is one.
pub fn refuse_overwriting<H: Files>(
    rt: &H,
    alloc: Global,
    output: &String,
    level: &String,
    script: &Option<String>,
) -> Result<(), Fault> {
    refuse_same_file(rt, alloc, output, level)?;
    match script {
        Some(script) => refuse_same_file(rt, alloc, output, script),
        None => Ok(()),
    }
}

/// Refuses an output that is the level, the log or the script, where there is one.
pub fn refuse_overwriting_log<H: Files>(
    rt: &H,
    alloc: Global,
    output: &String,
    level: &String,
    log: &String,
    script: &Option<String>,
) -> Result<(), Fault> {
    refuse_overwriting(rt, alloc, output, level, script)?;
    refuse_same_file(rt, alloc, output, log)
}

/// The same of level and script, where the words may name an output.
pub fn refuse_optional_overwriting<H: Files>(
    rt: &H,
    alloc: Global,
    output: &Option<String>,
    level: &String,
    script: &Option<String>,
) -> Result<(), Fault> {
    match output {
        Some(output) => refuse_overwriting(rt, alloc, output, level, script),
        None => Ok(()),
    }
}
