// One run of a case: what is done, and how much of the files and of standard input there is.
use crate::case::{Act, Case, Cut, NamedBytes, Span, Unit};
use std::alloc::{AllocError, Global};

/// What is done in one run, to what length a file or standard input is cut, and how many bytes standard output takes.
#[derive(Clone, Copy, Drop)]
pub struct Run<'a> {
    pub act: &'a Act,
    pub cut: Option<usize>,
    pub room: Option<usize>,
}

fn lengths(span: Option<Span>) -> Span {
    span.unwrap_or(Span { first: 0, last: 0 })
}

fn within(span: Option<Span>, at: usize) -> Option<usize> {
    match span {
        Some(_) => Some(at),
        None => None,
    }
}

/// The runs of a case: each act, cut to each length, with each room.
pub fn runs_of(alloc: Global, case: &Case) -> Result<Vec<Run<'_>>, AllocError> {
    let cuts = case.cuts();
    let mut runs = Vec::new(alloc);
    for act in &case.acts {
        for cut in lengths(cuts).first..=lengths(cuts).last {
            for room in lengths(case.room).first..=lengths(case.room).last {
                runs.push(Run {
                    act,
                    cut: within(cuts, cut),
                    room: within(case.room, room),
                })?;
            }
        }
    }
    Ok(runs)
}

/// The first so many lines.
fn lines_of(bytes: &[u8], count: usize) -> &[u8] {
    let mut left = count;
    for (index, byte) in bytes.iter().enumerate() {
        if left == 0 {
            return &bytes[..index];
        }
        if *byte == b'\n' {
            left -= 1;
        }
    }
    bytes
}

/// The bytes up to a cut.
fn cut_to<'a>(bytes: &'a [u8], cut: &Cut, length: Option<usize>) -> &'a [u8] {
    match (length, cut.unit) {
        (Some(length), Unit::Bytes) => &bytes[..length.min(bytes.len())],
        (Some(length), Unit::Lines) => lines_of(bytes, length),
        (None, _) => bytes,
    }
}

impl Run<'_> {
    /// The bytes of a file of the case, cut as far as it is in this run.
    pub fn bytes_of<'a>(&self, case: &'a Case, file: &'a NamedBytes) -> &'a [u8] {
        match &case.cut {
            Some(cut) => match &cut.path {
                Some(path) => if path.as_str() == file.path.as_str() {
                    cut_to(&file.bytes, cut, self.cut)
                } else {
                    &file.bytes
                },
                None => &file.bytes,
            },
            None => &file.bytes,
        }
    }

    /// The bytes of standard input, cut as far as they are in this run.
    pub fn input_of<'a>(&self, case: &'a Case) -> &'a [u8] {
        match &case.cut {
            Some(cut) => if cut.path.is_none() {
                cut_to(&case.input, cut, self.cut)
            } else {
                &case.input
            },
            None => &case.input,
        }
    }
}
