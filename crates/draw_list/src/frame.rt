ghost use Rattle.std.specs.Prelude.{◌≡◌, ◌++◌, length, codes, decimal, Bool, List, IfOk, IfErr, IfSome, IfNone, MatchResult};
ghost use Rattle.std.specs.List.{flat_map};
ghost use Rattle.game_rules.specs.Text.{agents_text, text};
ghost use Rattle.draw_list.specs.Bands.{bands_of, gap_of};

use crate::band::Band;
use crate::draw::draw_bands;
use crate::draw_fault::DrawFault;
use crate::gap::first_gap;
use crate::lines::{push_agent_lines, push_frame_line, push_rows};
use bt_nodes::Status;
use grid_world::{Signals, World};
use std::alloc::{AllocError, Global};

/// The most bytes of the lines before and after the rows: `frame` with a number of 32 bits, and the lines of 26 agents on a
/// map of 128 by 128 cells.
const LINES_LENGTH: usize = 17 + 26 * 14;

/// The text of a frame: its number, the bands' rows, and a line for each agent of the world.
///
/// The bands are looked at first, so `Gap` comes before any memory is taken; the only other fault is want of
/// memory. Takes time in proportion to the text.
pub fn frame_text(
    alloc: Global,
    frame: u32,
    bands: &[Band],
    world: &World,
    statuses: &[Status],
) -> Result<Vec<u8>, DrawFault>
    requires { length statuses.now ≡ length world.now.agents }
    ensures gap { IfSome (gap_of world.now bands.now) (λ k. result ≡ Err (DrawFault.Gap k)) }
    ensures whole { IfNone (gap_of world.now bands.now) (IfErr result (λ fault. fault ≡ DrawFault.OutOfMemory)) }
    ensures text { IfOk result (λ written. written.items ≡ codes "frame " ++ decimal frame ++ codes "\n"
        ++ flat_map (λ b. b.rows) bands.now ++ agents_text 0 world.now.agents statuses.now) }
    ensures drawn { (signals : List Bool) → bands.now ≡ bands_of world.now signals → MatchResult result
        (λ written. written.items ≡ text frame world.now signals statuses.now) (λ fault. fault ≡ DrawFault.OutOfMemory) }
{
    let width = world.width();
    let height = world.height();
    if let Some(band) = first_gap(width, height, bands) {
        return Err(DrawFault::Gap { band });
    }
    let rows_length = (width as usize + 1) * height as usize;
    let mut written = Vec::with_capacity(alloc, rows_length + LINES_LENGTH)?;
    push_frame_line(&mut written, frame)?;
    push_rows(&mut written, bands)?;
    push_agent_lines(&mut written, world.agents(), statuses)?;
    Ok(written)
}

/// Draws a frame: its text, with the rows of its world under its signals.
pub fn draw_frame(
    alloc: Global,
    frame: u32,
    world: &World,
    signals: Signals,
    statuses: &[Status],
) -> Result<Vec<u8>, AllocError>
    requires { length statuses.now ≡ length world.now.agents }
    ensures { IfOk result (λ written. written.items ≡ text frame world.now signals statuses.now) }
{
    let bands = draw_bands(alloc, world, signals)?;
    match frame_text(alloc, frame, &bands, world, statuses) {
        Ok(text) => Ok(text),
        Err(_) => Err(AllocError),
    }
}
