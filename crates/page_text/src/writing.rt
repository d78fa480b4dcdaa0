ghost use Rattle.std.specs.Prelude.{◌≡◌, ◌≤◌, ◌+◌, ◌++◌, length, OnOk};
ghost use Rattle.page_text.specs.Changes.{changes_from, change_text, changes_text};

use crate::byte_change::ByteChange;
use itoa::Buffer;
use std::alloc::AllocError;

// How many bytes are compared at a time.
const PIECE: usize = 128;

fn push_change(text: &mut Vec<u8>, change: ByteChange) -> Result<(), AllocError>
    ensures { OnOk result (text.new.items ≡ text.old.items ++ change_text change) }
{
    let mut digits = Buffer::new();
    text.extend_from_slice(&[change.glyph])?;
    text.extend_from_slice(digits.format(change.place).as_bytes())?;
    text.extend_from_slice(b",")
}

/// Appends what changed from the old bytes to the new ones, which stand in their texts behind so many others.
fn push_piece(text: &mut Vec<u8>, at: usize, old: &[u8], new: &[u8]) -> Result<(), AllocError>
    requires same { length old.now ≡ length new.now }
    requires few { at + length new.now ≤ 16512 }
    ensures { OnOk result (text.new.items ≡ text.old.items ++ changes_text (changes_from at old.now new.now)) }
{
    'bytes: for (index, glyph) in new.iter().enumerate() {
        if *glyph != old[index] {
            push_change(
                text,
                ByteChange {
                    place: (at + index) as u32,
                    glyph: *glyph,
                },
            )?;
        }
    }
    Ok(())
}

/// Appends what changed from the old text to the new one, which is as long. Pieces in which nothing changed are passed over
/// as wholes. Where memory is refused a first part of it is appended.
pub fn push_changes(text: &mut Vec<u8>, old: &[u8], new: &[u8]) -> Result<(), AllocError>
    requires same { length old.now ≡ length new.now }
    requires few { length new.now ≤ 16512 }
    ensures { OnOk result (text.new.items ≡ text.old.items ++ changes_text (changes_from 0 old.now new.now)) }
{
    let mut place = 0;
    'pieces: while place < new.len() {
        let end = place + PIECE.min(new.len() - place);
        let before = &old[place..end];
        let after = &new[place..end];
        if before != after {
            push_piece(text, place, before, after)?;
        }
        place = end;
    }
    Ok(())
}
