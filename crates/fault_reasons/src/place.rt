// Lines and columns.
/// The line and the column, both from 1, of the byte at an offset; columns count bytes. An offset behind the end is the end.
pub(crate) fn place_of(bytes: &[u8], offset: usize) -> (usize, usize) {
    let before = bytes.get(..offset).unwrap_or(bytes);
    let lines = before.iter().filter(|b| **b == b'\n').count();
    let column = match before.iter().rposition(|b| *b == b'\n') {
        Some(i) => before.len().saturating_sub(i),
        None => before.len().saturating_add(1),
    };
    (lines.saturating_add(1), column)
}
