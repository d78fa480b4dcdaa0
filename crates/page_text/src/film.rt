ghost use Rattle.std.specs.Prelude.{◌≡◌, ◌≤◌, ◌⊎◌, ◌++◌, [], length, OnOk};
ghost use Rattle.page_text.specs.Films.{as_frame, kept_frame, kept_rows};

use crate::writing::push_changes;
use std::alloc::{AllocError, Global};

/// Frames that are kept as changes: the first one's rows, then for each further one a line of the bytes of its rows that
/// changed, and behind the rows or the line of each its agents' lines as they are. Of the rows only the last frame's are
/// at hand.
#[derive(Debug, Drop)]
pub struct Film {
    pub text: Vec<u8>,
    /// The rows of the last frame; none at first.
    pub rows: Vec<u8>,
}

/// Appends rows as they are kept behind others.
fn push_rows(text: &mut Vec<u8>, old: &[u8], new: &[u8]) -> Result<(), AllocError>
    requires same { (old.now ≡ []) ⊎ (length old.now ≡ length new.now) }
    requires few { length new.now ≤ 16512 }
    ensures { OnOk result (text.new.items ≡ text.old.items ++ kept_rows old.now new.now) }
{
    if old.is_empty() {
        return text.extend_from_slice(new);
    }
    push_changes(text, old, new)?;
    text.extend_from_slice(b"\n")
}

impl Film {
    /// Of no frames.
    pub fn new(alloc: Global) -> Film
        ensures text { result.text.items ≡ [] }
        ensures rows { result.rows.items ≡ [] }
    {
        Film {
            text: Vec::new(alloc),
            rows: Vec::new(alloc),
        }
    }

    /// Adds a frame, by its rows and its agents' lines. All frames have as many bytes of rows, at most those of a map of
    /// 128 by 128 cells. Takes one pass over the rows. Where memory is refused the film is of no use any more: a first part
    /// of the frame may stand in `text`, and `rows` may be empty.
    pub fn push(&mut self, rows: &[u8], lines: &[u8]) -> Result<(), AllocError>
        requires same { (self.old.rows.items ≡ []) ⊎ (length self.old.rows.items ≡ length rows.now) }
        requires few { length rows.now ≤ 16512 }
        ensures text { OnOk result (self.new.text.items
            ≡ self.old.text.items ++ kept_frame self.old.rows.items (as_frame rows.now lines.now)) }
        ensures rows { OnOk result (self.new.rows.items ≡ rows.now) }
    {
        push_rows(&mut self.text, &self.rows, rows)?;
        self.text.extend_from_slice(lines)?;
        self.rows.clear();
        self.rows.extend_from_slice(rows)
    }
}
