// Lists and objects in one another.

// In so many lists and objects `serde_json` reads a value, and in no more.
const MOST: u64 = 127;

/// What stands around a byte of a JSON text.
#[derive(Clone, Copy, PartialEq, Eq)]
enum Around {
    Value,
    Text,
    /// Behind a backslash in a text.
    Escape,
}

/// The offset of the first bracket that opens a list or an object in too many others, by counting alone.
pub(crate) fn too_deep(bytes: &[u8]) -> Option<usize> {
    let mut around = Around::Value;
    let mut depth = 0u64;
    for (offset, byte) in bytes.iter().enumerate() {
        around = match (around, *byte) {
            (Around::Value, b'"') => Around::Text,
            (Around::Text, b'"') => Around::Value,
            (Around::Text, b'\\') => Around::Escape,
            (Around::Escape, _) => Around::Text,
            (around, _) => around,
        };
        if around == Around::Value {
            match *byte {
                b'[' | b'{' => depth = depth.saturating_add(1),
                b']' | b'}' => depth = depth.saturating_sub(1),
                _ => {}
            }
        }
        if depth > MOST {
            return Some(offset);
        }
    }
    None
}
