// How many bands a map has, and whether bands are those of a map, by their numbers and sizes.
ghost use Rattle.std.specs.Prelude.{◌≡◌, ◌≤◌, ◌<◌, ◌+◌};
ghost use Rattle.draw_list.specs.Bands.{stands_at, gap_from, band_count, band_height};

use crate::band::{BAND_ROWS, Band};

/// How many bands a map of so many rows has.
pub fn band_count(height: u32) -> u32
    ensures { result ≡ band_count height }
{
    height.div_ceil(BAND_ROWS)
}

/// How many rows a band of a map has, 0 below the last band.
pub fn band_height(height: u32, number: u32) -> u32
    requires { height ≤ 128 }
    ensures { result ≡ band_height height number }
{
    BAND_ROWS.min(height.saturating_sub(number.saturating_mul(BAND_ROWS)))
}

/// Whether a band has the number and the size of the one at a place.
fn stands_at(width: u32, height: u32, place: u32, band: &Band) -> bool
    requires wide { width ≤ 128 }
    requires high { height ≤ 128 }
    ensures { result ≡ stands_at width height place band.now }
{
    band.number == place
        && band.width == width
        && band.rows.as_bytes().len() as u64
            == u64::from(width + 1) * u64::from(band_height(height, place))
}

/// The first place whose band is missing, has another number or another size, or is one too many.
pub fn first_gap(width: u32, height: u32, bands: &[Band]) -> Option<u32>
    requires wide { width ≤ 128 }
    requires high { height ≤ 128 }
    ensures { result ≡ gap_from width height 0 bands.now }
{
    let count = band_count(height);
    let mut place = 0;
    'bands: for band in bands {
        if place >= count || !stands_at(width, height, place, band) {
            return Some(place);
        }
        place += 1;
    }
    if place < count { Some(place) } else { None }
}
