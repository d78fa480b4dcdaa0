// What a person at a terminal is told beside the line of a refused file.
use command_line::{Words, read_words, refuse_optional_overwriting};
use std::alloc::Global;
use std::io::Write;
use std::rt::Files;

fn say<E: Write>(err: &mut E, level: &String, script: &Option<String>) {
    let _ = match script {
        Some(script) => writeln!(
            err,
            "btworld explain {level} --script {script} says where and why"
        ),
        None => writeln!(err, "btworld explain {level} says where and why"),
    };
}

/// Names the command that says more, where these words are those of `play` or `check`, which refused a level or a script. Nothing where
/// they were refused themselves.
pub fn point_to_explain<H: Files, E: Write>(rt: &H, alloc: Global, words: &[String], err: &mut E) {
    match read_words(alloc, words) {
        Ok(
            Words::Play {
                level,
                script,
                log,
                ..
            },
        ) => if refuse_optional_overwriting(rt, alloc, &log, &level, &script).is_ok() {
            say(err, &level, &script);
        },
        Ok(Words::Check { level }) => say(err, &level, &None),
        _ => {}
    }
}
