ghost use Rattle.std.specs.Prelude.{◌≡◌, ◌≢◌, [], None, string_bytes, IfOk, IfErr, IsOkAnd, IsSomeAnd, OnOk, OnErr};
ghost use Rattle.std.specs.IoError.{error_kind};
ghost use Rattle.std.specs.Io.KnownBytes.{Appends};
ghost use Rattle.byte_streams.specs.Streams.{AppendsPart};
ghost use Rattle.command_line.specs.Faults.{IsFileFault};

use crate::program_fault::Fault;
use byte_streams::{ReadFault, read_whole, write_whole};
use std::alloc::Global;
use std::io::{ErrorKind, Write};
use std::rt::Files;
use std::{fs, io};

/// Why a file could not be opened or made: when out of memory, or else by its name.
pub(crate) fn file_fault(path: String, error: &io::Error) -> Fault
    ensures memory { error_kind error.now ≡ ErrorKind.OutOfMemory → result ≡ Fault.OutOfMemory }
    ensures file { error_kind error.now ≢ ErrorKind.OutOfMemory → result ≡ Fault.File path }
    ensures either { IsFileFault (string_bytes path) result }
{
    if error.kind() == ErrorKind::OutOfMemory {
        Fault::OutOfMemory
    } else {
        Fault::File(path)
    }
}

/// All bytes of a file that the words name.
pub fn read_file<H: Files>(rt: &H, alloc: Global, path: String) -> Result<Vec<u8>, Fault>
    ensures { IfErr result (IsFileFault (string_bytes path)) }
{
    let mut file = match fs::open(rt, path.as_str()) {
        Ok(file) => file,
        Err(error) => return Err(file_fault(path, &error)),
    };
    match read_whole(alloc, &mut file) {
        Ok(bytes) => Ok(bytes),
        Err(ReadFault::OutOfMemory) => Err(Fault::OutOfMemory),
        Err(ReadFault::Read) => Err(Fault::File(path)),
    }
}

/// All bytes of a file that the words may name, none where they don't.
pub fn read_optional_file<H: Files>(
    rt: &H,
    alloc: Global,
    path: Option<String>,
) -> Result<Vec<u8>, Fault>
    ensures none { path ≡ None → IsOkAnd result (λ bytes. bytes.items ≡ []) }
    ensures fault { IfErr result (λ fault. IsSomeAnd path (λ p. IsFileFault (string_bytes p) fault)) }
{
    match path {
        Some(path) => read_file(rt, alloc, path),
        None => Ok(Vec::new(alloc)),
    }
}

/// Makes an empty file, in place of one that is there, which takes the bytes that are written, one behind another. Gives the path back.
pub fn create_file<H: Files>(rt: &H, path: String) -> Result<(H::File, String), Fault>
    ensures path { IfOk result (λ made. string_bytes made.1 ≡ string_bytes path) }
    ensures fault { IfErr result (IsFileFault (string_bytes path)) }
{
    match fs::create(rt, path.as_str()) {
        Ok(file) => Ok((file, path)),
        Err(error) => Err(file_fault(path, &error)),
    }
}

/// Writes all bytes and flushes once. The fault is `Write`; a first part was written then.
pub fn put<W: Write>(out: &mut W, bytes: &[u8]) -> Result<(), Fault>
    ensures ok { OnOk result (Appends (W.contents out.old) (W.contents out.new) bytes.now) }
    ensures err { OnErr result (AppendsPart (W.contents out.old) (W.contents out.new) bytes.now) }
    ensures fault { IfErr result (λ fault. fault ≡ Fault.Write) }
{
    match write_whole(out, bytes) {
        Ok(()) => match out.flush() {
            Ok(()) => Ok(()),
            Err(_) => Err(Fault::Write),
        },
        Err(_) => Err(Fault::Write),
    }
}
