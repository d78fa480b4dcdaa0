/// A cell of a map, as drawn: its column, its row on the map, and its glyph in ASCII.
#[derive(Clone, Copy, Debug, PartialEq, Eq, Drop)]
pub struct DrawItem {
    pub x: u32,
    pub y: u32,
    pub glyph: u8,
}
