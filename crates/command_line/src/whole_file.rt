// Files that appear whole or not at all.
ghost use Rattle.std.specs.Prelude.{string_bytes, IfErr};
ghost use Rattle.command_line.specs.Faults.{IsFileFault};

use crate::files::file_fault;
use crate::program_fault::Fault;
use byte_streams::write_whole;
use std::alloc::Global;
use std::fs::File;
use std::io::{ErrorKind, Write};
use std::rt::Files;
use std::{fs, io};

// How many names beside a file are tried.
const NAMES: u32 = 100;

fn write_to<W: Write>(file: &mut W, bytes: &[u8]) -> io::Result<()> {
    if write_whole(file, bytes).is_err() {
        return Err(io::Error::from(ErrorKind::Other));
    }
    file.flush()
}

/// A new file beside that of this path, and its own path.
fn create_beside<H: Files>(rt: &H, alloc: Global, path: &str) -> io::Result<(H::File, String)> {
    for number in 0..NAMES {
        let Ok(beside) = format!(in alloc; "{path}.part{number}") else {
            return Err(io::Error::from(ErrorKind::OutOfMemory));
        };
        match File::create_new(rt, beside.as_str()) {
            Ok(file) => return Ok((file, beside)),
            Err(error) => if error.kind() != ErrorKind::AlreadyExists {
                return Err(error);
            },
        }
    }
    Err(io::Error::from(ErrorKind::AlreadyExists))
}

fn write_beside<H: Files>(rt: &H, alloc: Global, path: &str, bytes: &[u8]) -> io::Result<()> {
    let (mut file, beside) = create_beside(rt, alloc, path)?;
    let written = write_to(&mut file, bytes);
    drop(file);
    let done = match written {
        Ok(()) => fs::rename(rt, beside.as_str(), path),
        Err(error) => Err(error),
    };
    if done.is_err() {
        let _ = fs::remove_file(rt, beside.as_str());
    }
    done
}

fn write_in_place<H: Files>(rt: &H, path: &str, bytes: &[u8]) -> io::Result<()> {
    let mut file = fs::create(rt, path)?;
    write_to(&mut file, bytes)
}

/// In place of a plain file that is there; a link to it stays one. One that may not be written to is left as it is.
fn replace<H: Files>(rt: &H, alloc: Global, path: &str, bytes: &[u8]) -> io::Result<()> {
    let file = File::options().write(true).open(rt, path)?;
    drop(file);
    let real = rt.canonicalize(alloc, path)?;
    write_beside(rt, alloc, real.as_path().as_str(), bytes)
}

fn write_whole_file<H: Files>(rt: &H, alloc: Global, path: &str, bytes: &[u8]) -> io::Result<()> {
    match rt.metadata(path) {
        Ok(found) => if found.is_file() {
            replace(rt, alloc, path, bytes)
        } else {
            write_in_place(rt, path, bytes)
        },
        // A link to a file that isn't there is written through.
        Err(_) => if rt.symlink_metadata(path).is_ok() {
            write_in_place(rt, path, bytes)
        } else {
            write_beside(rt, alloc, path, bytes)
        },
    }
}

/// Makes a file of these bytes, in place of one that is there. A plain file appears whole or not at all under its name: it is written
/// beside it, as `PATH.part0`, and renamed. Anything else, as a pipe or a terminal, takes the bytes as they come.
pub fn write_file<H: Files>(rt: &H, alloc: Global, path: String, bytes: &[u8]) -> Result<(), Fault>
    ensures { IfErr result (IsFileFault (string_bytes path)) }
{
    match write_whole_file(rt, alloc, path.as_str(), bytes) {
        Ok(()) => Ok(()),
        Err(error) => Err(file_fault(path, &error)),
    }
}
