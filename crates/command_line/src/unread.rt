ghost use Rattle.std.specs.Prelude.{◌≡◌, ◌≢◌};
ghost use Rattle.std.specs.IoError.{error_kind};

use crate::program_fault::Fault;
use byte_streams::write_whole;
use std::alloc::Global;
use std::io::{ErrorKind, Write};
use std::rt::Env;
use std::{env, io};

/// The words after the program's name.
pub fn words_given<H: Env + Alloc<A = Global>>(rt: &H) -> io::Result<Vec<String>> {
    let mut words = Vec::new(rt.alloc());
    let mut given = env::args(rt)?;
    let _name = given.next();
    for word in given {
        words.push(word)?;
    }
    Ok(words)
}

/// Says on `err` why the words after the program's name can't be had, and gives the status with which the program
/// ends: out of memory, or else a word that is no UTF-8. Takes no memory.
pub fn refuse_unread_words<E: Write>(error: &io::Error, err: &mut E) -> u8
    ensures memory { error_kind error.now ≡ ErrorKind.OutOfMemory → result ≡ 3 }
    ensures refused { error_kind error.now ≢ ErrorKind.OutOfMemory → result ≡ 2 }
{
    if error.kind() == ErrorKind::OutOfMemory {
        return Fault::OutOfMemory.report(err);
    }
    let _ = write_whole(err, b"error: a word is not UTF-8\n");
    2
}
