// What no clause says: that right words are taken, and words that lack a number are refused.
use command_line::{Words, WordsFault, read_words};
use std::alloc::Global;
use task_board::Settings;

fn read(alloc: Global, words: &[&str]) -> Option<Result<Words, WordsFault>> {
    let mut texts = Vec::new(alloc);
    for word in words {
        texts.push(String::from_str(alloc, word).ok()?).ok()?;
    }
    Some(read_words(alloc, &texts))
}

// Frames, workers, small and large fibers, slots.
fn numbers_of(settings: &Settings) -> [u32; 5] {
    [
        settings.frames(),
        settings.workers(),
        settings.small(),
        settings.large(),
        settings.slots(),
    ]
}

// The numbers that words are taken for which ask to play the file `f`, with no script and no log.
fn played(alloc: Global, words: &[&str]) -> Option<[u32; 5]> {
    match &read(alloc, words)?.ok()? {
        Words::Play {
            level,
            settings,
            script: None,
            log: None,
        } if level.as_str() == "f" => Some(numbers_of(settings)),
        _ => None,
    }
}

fn are_refused(alloc: Global, words: &[&str]) -> Option<bool> {
    Some(matches!(&read(alloc, words)?, Err(WordsFault::Refused(_))))
}

#[test]
fn numbers_that_are_not_said_have_their_defaults(rt: HostRuntime) {
    let words = ["play", "f", "--frames", "3", "--workers", "1"];
    assert!(rt; played(rt.alloc(), &words) == Some([3, 1, 8, 8, 3]));
    assert!(rt; are_refused(rt.alloc(), &["play", "f"]) == Some(true));
}
