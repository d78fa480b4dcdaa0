/// Where in a file a fault lies, and what is wrong there.
#[derive(Debug, PartialEq, Eq, Drop)]
pub struct Reason {
    /// From 1.
    pub line: usize,
    /// From 1, in bytes; none where the whole line is meant.
    pub column: Option<usize>,
    /// The JSON pointer (RFC 6901) to the value that is meant; empty for the top value, and where none is meant.
    pub pointer: String,
    pub words: String,
}
