use std::alloc::Global;

/// A file by its path in the folder that the program runs in.
#[derive(Drop)]
pub struct NamedBytes {
    pub path: String,
    pub bytes: Vec<u8>,
}

/// What a stream has to be given.
#[derive(Drop)]
pub struct Wanted {
    pub bytes: Vec<u8>,
    /// Any text but none will do.
    pub is_any: bool,
    /// Any text in which the bytes stand will do.
    pub is_part: bool,
}

/// A file that a run has to make, by how many lines it has where that is said.
#[derive(Drop)]
pub struct NamedLines {
    pub path: String,
    pub lines: Option<usize>,
}

/// From the first number to the last, both among them.
#[derive(Clone, Copy, Drop)]
pub struct Span {
    pub first: usize,
    pub last: usize,
}

/// What the length of a cut file is counted in.
#[derive(Clone, Copy, Drop)]
pub enum Unit {
    Bytes,
    Lines,
}

/// Which file is cut, or standard input where it is none, and to what lengths.
#[derive(Drop)]
pub struct Cut {
    pub path: Option<String>,
    pub unit: Unit,
    pub lengths: Span,
}

/// The files of a log that is completed.
#[derive(Drop)]
pub struct Completion {
    pub level: String,
    pub log: String,
    /// Where the whole log is written.
    pub whole: String,
}

/// What a run does.
#[derive(Drop)]
pub enum Act {
    /// What these words ask the program for.
    Words(Vec<String>),
    /// Completes a log, which no words of the program ask for.
    Complete(Completion),
}

/// What is done, what is there before, and what has to come of it.
#[derive(Drop)]
pub struct Case {
    pub name: String,
    /// What judging has to find different, in its own words, where the case is wrong on purpose.
    pub differs: Option<String>,
    /// Each is a run of its own.
    pub acts: Vec<Act>,
    /// Words of a run that comes after each, and has to write the same frames.
    pub then: Option<Vec<String>>,
    pub files: Vec<NamedBytes>,
    pub input: Vec<u8>,
    /// How many bytes a read gives at most.
    pub pieces: usize,
    pub input_fails: bool,
    pub flush_fails: bool,
    pub cut: Option<Cut>,
    /// How many bytes standard output takes, one at a time, before it takes no more.
    pub room: Option<Span>,
    pub out: Wanted,
    pub err: Wanted,
    pub status: u8,
    /// Files that the run has to make.
    pub made: Vec<NamedBytes>,
    pub counted: Vec<NamedLines>,
}

impl Case {
    /// A case of no acts and no files, whose input is empty, and that wants no output and the status 0.
    pub fn new(alloc: Global, name: String) -> Case {
        Case {
            name,
            differs: None,
            acts: Vec::new(alloc),
            then: None,
            files: Vec::new(alloc),
            input: Vec::new(alloc),
            pieces: 65536,
            input_fails: false,
            flush_fails: false,
            cut: None,
            room: None,
            out: Wanted {
                bytes: Vec::new(alloc),
                is_any: false,
                is_part: false,
            },
            err: Wanted {
                bytes: Vec::new(alloc),
                is_any: false,
                is_part: false,
            },
            status: 0,
            made: Vec::new(alloc),
            counted: Vec::new(alloc),
        }
    }

    /// What of its runs has to differ; none where the case is right.
    pub fn foreseen(&self) -> Option<&str> {
        match &self.differs {
            Some(what) => Some(what.as_str()),
            None => None,
        }
    }

    /// The lengths that a file or standard input is cut to; none where nothing is cut.
    pub fn cuts(&self) -> Option<Span> {
        match &self.cut {
            Some(cut) => Some(cut.lengths),
            None => None,
        }
    }
}
