// What a run wrote, beside what it had to write.
use crate::case::Wanted;

/// What a run answered and wrote.
#[derive(Drop)]
pub struct Ran {
    pub status: u8,
    pub out: Vec<u8>,
    pub err: Vec<u8>,
    pub flushes: u32,
    /// Whether the words that come after it wrote the same.
    pub repeats: bool,
    /// Whether each file is there that it had to make.
    pub has_made: bool,
}

fn has_part(text: &[u8], part: &[u8]) -> bool {
    match (str::from_utf8(text), str::from_utf8(part)) {
        (Ok(text), Ok(part)) => text.contains(part),
        _ => false,
    }
}

fn is_wanted(given: &[u8], wanted: &Wanted, most: usize) -> bool {
    if wanted.is_any {
        return !given.is_empty();
    }
    if wanted.is_part {
        return has_part(given, &wanted.bytes);
    }
    given == &wanted.bytes[..most.min(wanted.bytes.len())]
}

impl Ran {
    /// The first thing that is not as it has to be. Of the text of standard output so many bytes have to be there.
    pub fn difference(
        &self,
        status: u8,
        out: &Wanted,
        room: usize,
        err: &Wanted,
    ) -> Option<&'static str> {
        if self.status != status {
            Some("status")
        } else if !is_wanted(&self.out, out, room) {
            Some("standard output")
        } else if !is_wanted(&self.err, err, usize::MAX) {
            Some("standard error")
        } else if status == 0 && self.flushes != 1 {
            Some("number of flushes")
        } else if !self.repeats {
            Some("what the words after it write")
        } else if !self.has_made {
            Some("a file that it makes")
        } else {
            None
        }
    }
}
