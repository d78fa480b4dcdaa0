// Ways from the top value of a JSON text to one in it.
use std::alloc::{AllocError, Global};

/// What leads from a value to one in it: a reference token of RFC 6901.
#[derive(Debug, Drop)]
pub(crate) enum ReferenceToken {
    Member(String),
    Item(usize),
}

/// What leads from the top value to one in it.
#[derive(Debug, Drop)]
pub(crate) struct Pointer {
    alloc: Global,
    tokens: Vec<ReferenceToken>,
}

impl Pointer {
    /// The pointer to the top value.
    pub(crate) fn new(alloc: Global) -> Pointer {
        Pointer {
            alloc,
            tokens: Vec::new(alloc),
        }
    }

    pub(crate) fn tokens(&self) -> &[ReferenceToken] {
        &self.tokens
    }

    /// Goes on to a member of the value.
    pub(crate) fn member(&mut self, name: &str) -> Result<(), AllocError> {
        self.tokens.push(ReferenceToken::Member(String::from_str(self.alloc, name)?))?;
        Ok(())
    }

    /// Goes on to an item of the value.
    pub(crate) fn item(&mut self, index: usize) -> Result<(), AllocError> {
        self.tokens.push(ReferenceToken::Item(index))?;
        Ok(())
    }

    /// Goes back to the value that the last one led from.
    pub(crate) fn leave(&mut self) {
        drop(self.tokens.pop());
    }

    /// The pointer as text, as RFC 6901 writes it.
    pub(crate) fn text(&self) -> Result<String, AllocError> {
        let mut text = String::new(self.alloc);
        for token in &self.tokens {
            match token {
                ReferenceToken::Member(name) => push_name(&mut text, name)?,
                ReferenceToken::Item(index) => write!(text, "/{index}")?,
            }
        }
        Ok(text)
    }
}

fn push_name(text: &mut String, name: &str) -> Result<(), AllocError> {
    text.push('/')?;
    for c in name.chars() {
        match c {
            '~' => text.push_str("~0")?,
            '/' => text.push_str("~1")?,
            c => text.push(c)?,
        }
    }
    Ok(())
}
