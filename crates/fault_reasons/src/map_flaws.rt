// Maps that are none.
use crate::pointer::Pointer;
use serde_json::Value;
use std::alloc::{AllocError, Global};

// How many rows and columns a map of `grid_world` has at most.
const MOST: usize = 128;

/// The rows of a level's map.
pub(crate) fn rows_of(level: &Value) -> &[Value] {
    match level.get("map") {
        Some(Value::Array(rows)) => rows,
        _ => &[],
    }
}

/// The characters of a row.
fn text_of(row: &Value) -> &str {
    row.as_str().unwrap_or("")
}

/// Which of these characters are on the map.
pub(crate) fn marks_on(
    alloc: Global,
    level: &Value,
    low: u8,
    high: u8,
) -> Result<Vec<char>, AllocError> {
    let mut marks = Vec::new(alloc);
    for code in low..=high {
        let mark = char::from(code);
        if row_with(rows_of(level), mark).is_some() {
            marks.push(mark)?;
        }
    }
    Ok(marks)
}

/// The first row with a character.
fn row_with(rows: &[Value], mark: char) -> Option<usize> {
    rows.iter()
        .position(|row| text_of(row).chars().any(|c| c == mark))
}

fn plural(count: usize) -> &'static str {
    if count == 1 { "" } else { "s" }
}

/// What is wrong of a row that has so many characters, where the first has `first`.
fn width_flaw(alloc: Global, width: usize, first: usize) -> Result<Option<String>, AllocError> {
    let s = plural(width);
    if width != first {
        return Ok(Some(format!(in alloc; "{width} character{s}, row 0 has {first}")?));
    }
    if width == 0 {
        return Ok(Some(String::from_str(alloc, "0 characters, at least 1")?));
    }
    if width > MOST {
        return Ok(Some(format!(in alloc; "{width} character{s}, at most {}", MOST)?));
    }
    Ok(None)
}

/// What is wrong of the number of a map's rows, or of the length of the first row that has a wrong one.
pub(crate) fn size_flaw(
    alloc: Global,
    rows: &[Value],
    at: &mut Pointer,
) -> Result<Option<String>, AllocError> {
    let [first, ..] = rows else {
        return Ok(Some(String::from_str(alloc, "0 rows, at least 1")?));
    };
    if rows.len() > MOST {
        let count = rows.len();
        return Ok(Some(format!(in alloc; "{count} rows, at most {}", MOST)?));
    }
    let first = text_of(first).chars().count();
    for (y, row) in rows.iter().enumerate() {
        if let Some(words) = width_flaw(alloc, text_of(row).chars().count(), first)? {
            at.item(y)?;
            return Ok(Some(words));
        }
    }
    Ok(None)
}

/// The character that no map has.
pub(crate) fn character_flaw(
    alloc: Global,
    level: &Value,
    x: u32,
    y: u32,
    at: &mut Pointer,
) -> Result<Option<String>, AllocError> {
    let Some(row) = rows_of(level).get(y as usize) else {
        return Ok(None);
    };
    let Some(c) = text_of(row).chars().nth(x as usize) else {
        return Ok(None);
    };
    at.member("map")?;
    at.item(y as usize)?;
    Ok(Some(format!(in alloc; "\"{c}\"")?))
}

/// A letter of an agent or a digit that stands twice: its second row, and the character.
fn twice(alloc: Global, rows: &[Value]) -> Result<Option<(usize, char)>, AllocError> {
    let mut seen = Vec::new(alloc);
    for (y, row) in rows.iter().enumerate() {
        for c in text_of(row).chars() {
            if c.is_ascii_uppercase() || c.is_ascii_digit() {
                if seen.contains(&c) {
                    return Ok(Some((y, c)));
                }
                seen.push(c)?;
            }
        }
    }
    Ok(None)
}

/// What is wrong of the letters and digits of a map's rows.
pub(crate) fn letters_flaw(
    alloc: Global,
    rows: &[Value],
    at: &mut Pointer,
) -> Result<Option<String>, AllocError> {
    if let Some((y, c)) = twice(alloc, rows)? {
        at.item(y)?;
        return Ok(Some(format!(in alloc; "{c} twice")?));
    }
    for code in b'B'..=b'Z' {
        let letter = char::from(code);
        let before = char::from(code - 1);
        if row_with(rows, before).is_some() {
            continue;
        }
        if let Some(y) = row_with(rows, letter) {
            at.item(y)?;
            return Ok(Some(format!(in alloc; "{letter} without {before}")?));
        }
    }
    Ok(None)
}
