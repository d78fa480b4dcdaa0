// Where in a JSON text a value begins.
use crate::pointer::{Pointer, ReferenceToken};
use json::{Reader, Scratch, Token};
use std::alloc::{AllocError, Global};

/// What is known of the way to a value between two tokens.
#[derive(Drop)]
struct Tracker {
    /// How many arrays and objects are open.
    depth: usize,
    /// How many of these, from the outermost on, hold the value that is looked for.
    on_way: usize,
    /// How many items of the innermost of these have begun.
    begun: usize,
    /// Whether the last key was the one that the way takes.
    has_key: bool,
}

impl Tracker {
    fn new() -> Tracker {
        Tracker {
            depth: 0,
            on_way: 0,
            begun: 0,
            has_key: false,
        }
    }

    /// What leads on from the innermost open value; none outside of the top value.
    fn next<'p>(&self, pointer: &'p [ReferenceToken]) -> Option<&'p ReferenceToken> {
        pointer.get(self.on_way.checked_sub(1)?)
    }

    fn key(&mut self, key: &str, pointer: &[ReferenceToken]) {
        self.has_key = match self.next(pointer) {
            Some(ReferenceToken::Member(name)) => self.depth == self.on_way && name.as_str() == key,
            _ => false,
        };
    }

    /// Whether the value that begins holds the one that is looked for, or is it.
    fn is_on_way(&mut self, pointer: &[ReferenceToken]) -> bool {
        if self.depth != self.on_way {
            return false;
        }
        match self.next(pointer) {
            None => true,
            Some(ReferenceToken::Member(_)) => self.has_key,
            Some(ReferenceToken::Item(index)) => {
                let here = self.begun == *index;
                self.begun = self.begun.saturating_add(1);
                here
            }
        }
    }

    fn open(&mut self, is_on_way: bool, pointer: &[ReferenceToken]) {
        if is_on_way && self.on_way < pointer.len() {
            self.on_way = self.on_way.saturating_add(1);
            self.begun = 0;
            self.has_key = false;
        }
        self.depth = self.depth.saturating_add(1);
    }

    fn close(&mut self) {
        if self.on_way == self.depth {
            self.on_way = self.on_way.saturating_sub(1);
            // What was looked for among the items was in the one that ends.
            self.begun = usize::MAX;
            self.has_key = false;
        }
        self.depth = self.depth.saturating_sub(1);
    }

    /// Goes past a token, and says whether with it the value begins that is looked for.
    fn pass(&mut self, token: &Token<'_>, pointer: &[ReferenceToken]) -> bool {
        match token {
            Token::Key(key) => {
                self.key(key, pointer);
                false
            }
            Token::BeginObject | Token::BeginArray => {
                let is_on_way = self.is_on_way(pointer);
                let is_wanted = is_on_way && self.on_way == pointer.len();
                self.open(is_on_way, pointer);
                is_wanted
            }
            Token::EndObject | Token::EndArray => {
                self.close();
                false
            }
            Token::String(_) | Token::Number(_) | Token::Bool(_) | Token::Null => {
                self.is_on_way(pointer) && self.on_way == pointer.len()
            }
            Token::Bad => false,
        }
    }
}

/// The offset of the first byte from `offset` on that begins a token of a value.
fn value_from(bytes: &[u8], offset: usize) -> usize {
    let behind = bytes.get(offset..).unwrap_or(&[]);
    let skipped = behind.iter().position(|b| !matches!(
        *b,
        b' ' | b'\t' | b'\n' | b'\r' | b',' | b':'
    ));
    offset.saturating_add(skipped.unwrap_or(0))
}

/// The offset at which the value begins to which a pointer leads. Of members with one name the last counts, as in the value that
/// `serde_json` reads. Takes one pass over the text.
pub(crate) fn offset_of(alloc: Global, text: &str, pointer: &Pointer) -> Result<usize, AllocError> {
    let mut scratch = Scratch::new(alloc);
    let mut reader = Reader::new(text, &mut scratch)?;
    let mut tracker = Tracker::new();
    let mut found = 0;
    let mut behind = 0;
    while let Some(token) = reader.next() {
        if tracker.pass(&token, pointer.tokens()) {
            found = value_from(text.as_bytes(), behind);
        }
        behind = reader.offset();
    }
    Ok(found)
}
