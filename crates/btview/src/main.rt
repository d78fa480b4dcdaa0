// The viewer: hands its words and its outputs to `view_command`.
#![tactic(auto)]

use std::alloc::Alloc;
use std::process::ExitCode;
use view_commands::{refuse_unread_words, view_command, words_given};

fn main(rt: HostRuntime) -> ExitCode {
    let mut err = rt.stderr();
    let status = match words_given(&rt) {
        Ok(words) => view_command(&rt, rt.alloc(), &words, &mut rt.stdout(), &mut err),
        Err(error) => refuse_unread_words(&error, &mut err),
    };
    ExitCode::from(status)
}
