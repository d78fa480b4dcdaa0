// How a program ends.
ghost use Rattle.std.specs.Prelude.{◌≡◌, ◌≢◌};
ghost use Rattle.command_line.specs.Faults.{status_in, IsRefusal};
ghost use Rattle.command_line.specs.Program.{IsNoHelp};

use crate::files::put;
use crate::program_fault::Fault;
use crate::words_fault::WordsFault;
use byte_streams::write_whole;
use std::io::Write;

/// The status with which a program ends that has done its work, or says on `err` why not.
pub fn end_with<E: Write>(done: Result<(), Fault>, err: &mut E) -> u8
    ensures { result ≡ status_in done }
{
    match done {
        Ok(()) => 0,
        Err(why) => why.report(err),
    }
}

/// Says why words are not done, on `out` where help or the version was asked for, and gives the status with which the program ends.
pub fn refuse_words<W: Write, E: Write>(fault: WordsFault, out: &mut W, err: &mut E) -> u8
    ensures refused { IsNoHelp fault → result ≢ 0 }
    ensures memory { fault ≡ WordsFault.OutOfMemory → result ≡ 3 }
    ensures words { IsRefusal fault → result ≡ 2 }
    ensures nothing { IsNoHelp fault → W.contents out.new ≡ W.contents out.old }
{
    match fault {
        WordsFault::OutOfMemory => Fault::OutOfMemory.report(err),
        WordsFault::Help(text) | WordsFault::Version(text) => end_with(
            put(out, text.as_bytes()),
            err,
        ),
        WordsFault::Refused(text) => {
            let _ = write_whole(err, text.as_bytes());
            2
        }
    }
}
