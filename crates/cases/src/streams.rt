// A reader and a writer over bytes.
use std::alloc::Global;
use std::io;
use std::io::{Read, Write};

/// Gives its bytes in pieces, and at their end answers no bytes or an error.
#[derive(Drop)]
pub struct Pieces<'a> {
    pub left: &'a [u8],
    pub size: usize,
    pub fails: bool,
}

impl Read for Pieces<'_> {
    fn read(&mut self, buf: &mut [u8]) -> io::Result<usize> {
        if self.left.is_empty() && self.fails {
            return Err(io::Error::from(io::ErrorKind::Other));
        }
        let count = self.size.min(buf.len()).min(self.left.len());
        buf[..count].copy_from_slice(&self.left[..count]);
        self.left = &self.left[count..];
        Ok(count)
    }
}

/// Takes all bytes, or one at a time until its room is full. Counts the flushes.
#[derive(Drop)]
pub struct Output {
    pub bytes: Vec<u8>,
    pub room: Option<usize>,
    pub flushes: u32,
    pub flush_fails: bool,
}

impl Output {
    /// Takes all bytes, and its flushes succeed.
    pub fn new(alloc: Global) -> Output {
        Output {
            bytes: Vec::new(alloc),
            room: None,
            flushes: 0,
            flush_fails: false,
        }
    }
}

impl Write for Output {
    fn write(&mut self, buf: &[u8]) -> io::Result<usize> {
        match self.room {
            None => {
                self.bytes.extend_from_slice(buf)?;
                Ok(buf.len())
            }
            Some(room) => {
                if buf.is_empty() || self.bytes.len() >= room {
                    return Ok(0);
                }
                self.bytes.push(buf[0])?;
                Ok(1)
            }
        }
    }

    fn flush(&mut self) -> io::Result<()> {
        self.flushes = self.flushes.saturating_add(1);
        if self.flush_fails {
            return Err(io::Error::from(io::ErrorKind::Other));
        }
        Ok(())
    }
}
