// The characters that cells are drawn as.
ghost use Rattle.std.specs.Prelude.{◌≡◌, ◌<◌};
ghost use Rattle.std.specs.Option.{ForSome};
ghost use Rattle.grid_world.specs.Glyphs.{base_glyph, content_glyph, glyph_of};

use crate::cell::Cell;
use crate::signal::Signals;

/// What a wall is drawn as.
pub const WALL: u8 = b'#';

/// What floor is drawn as with nobody and no item there.
pub const FLOOR: u8 = b'.';

/// What a door is drawn as while its signal is on; a shut one is drawn as the letter of its signal.
pub const OPEN_DOOR: u8 = b'/';

/// What an item is drawn as where no agent stands, on whatever ground it lies.
pub const ITEM: u8 = b'*';

/// What a cell is drawn as where nothing is on it.
pub fn base_glyph(cell: Cell, signals: &Signals) -> u8
    ensures { result ≡ base_glyph signals.now cell }
{
    match cell {
        Cell::Wall => WALL,
        Cell::Floor => FLOOR,
        Cell::Door(signal) => {
            if signals.is_on(signal) {
                OPEN_DOOR
            } else {
                b'a' + signal.number() as u8
            }
        }
        Cell::Spot(place) => b'0' + place.number() as u8,
    }
}

/// What a cell is drawn as on which an agent may stand and an item lie.
pub fn glyph_of(cell: Cell, agent: Option<usize>, item: bool, signals: &Signals) -> u8
    requires { ForSome agent (λ a. a < 26) }
    ensures { result ≡ glyph_of cell (content_glyph agent item (base_glyph signals.now cell)) }
{
    match (cell, agent) {
        (Cell::Wall, _) => WALL,
        (_, Some(a)) => b'A' + a as u8,
        (_, None) => {
            if item {
                ITEM
            } else {
                base_glyph(cell, signals)
            }
        }
    }
}
