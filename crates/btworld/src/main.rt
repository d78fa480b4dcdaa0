// The program: hands its words, its input and its outputs to `command`.
#![tactic(auto)]

use commands::{command, point_to_explain, refuse_unread_words, words_given};
use std::alloc::Alloc;
use std::io::IsTerminal;
use std::process::ExitCode;

fn main(rt: HostRuntime) -> ExitCode {
    let mut err = rt.stderr();
    let status = match words_given(&rt) {
        Ok(words) => {
            let status = command(
                &rt,
                rt.alloc(),
                &words,
                &mut rt.stdin(),
                &mut rt.stdout(),
                &mut err,
            );
            // Programs that read the one line of a fault find no second one.
            if status == 2 && err.is_terminal() {
                point_to_explain(&rt, rt.alloc(), &words, &mut err);
            }
            status
        }
        Err(error) => refuse_unread_words(&error, &mut err),
    };
    ExitCode::from(status)
}
