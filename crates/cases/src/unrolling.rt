// The frames in pages of samples, read as they stand there.
use crate::sample::Played;
use crate::streams::Output;
use anyhow::{Context, Result};
use std::alloc::Global;
use std::io::Write;
use std::str::Lines;
use trace_text::FrameSpan;
use view_commands::{PageSources, page_bytes};

/// What the page's element that begins so holds: it ends at the first `<`.
fn held<'a>(page: &'a str, begin: &str) -> Option<&'a str> {
    let (_, behind) = page.split_once(begin)?;
    let (held, _) = behind.split_once('<')?;
    Some(held)
}

fn push_lines(text: &mut Vec<u8>, lines: &mut Lines<'_>, count: usize) -> Result<()> {
    for _ in 0..count {
        let line = lines.next().context("a line is missing")?;
        text.extend_from_slice(line.as_bytes())?;
        text.push(b'\n')?;
    }
    Ok(())
}

/// Puts a line of changes into rows: each change is a byte and its place, and ends with a comma.
fn change_rows(rows: &mut [u8], line: &str) -> Result<()> {
    let mut glyph = None;
    let mut place = 0usize;
    for byte in line.as_bytes() {
        match (glyph, *byte) {
            (None, first) => {
                glyph = Some(first);
                place = 0;
            }
            (Some(changed), b',') => {
                *rows.get_mut(place).context("no such place")? = changed;
                glyph = None;
            }
            (Some(_), digit) => {
                let units = usize::from(digit.saturating_sub(b'0'));
                place = place.saturating_mul(10).saturating_add(units);
            }
        }
    }
    Ok(())
}

/// The text of the frames of a film: the first one's rows, then for each further one a line of what changed in them, and
/// behind each its agents' lines.
fn text_of(alloc: Global, film: &str, played: &Played) -> Result<Vec<u8>> {
    let world = played.session.world();
    let mut lines = film.lines();
    let mut rows = Vec::new(alloc);
    let mut text = Vec::new(alloc);
    for frame in 1..=played.frames.count {
        if frame == 1 {
            push_lines(&mut rows, &mut lines, world.height() as usize)?;
        } else {
            change_rows(&mut rows, lines.next().context("a line is missing")?)?;
        }
        writeln!(text, "frame {frame}")?;
        text.extend_from_slice(&rows)?;
        push_lines(&mut text, &mut lines, world.agents().len())?;
    }
    Ok(text)
}

/// The text of the frames in the page of a sample.
pub fn unrolled(alloc: Global, played: &Played) -> Result<Vec<u8>> {
    let mut out = Output::new(alloc);
    let sources = PageSources {
        name: played.path.as_bytes(),
        level: &played.level,
        script: &played.script,
        live: b"",
    };
    let frames = FrameSpan {
        first: 1,
        last: 9999,
    };
    page_bytes(alloc, &sources, played.log.clone()?, frames, &mut out)
        .ok()
        .context("no page")?;
    let page = str::from_utf8(&out.bytes).ok().context("not UTF-8")?;
    let film = held(page, "id=\"frames\">").context("no frames")?;
    text_of(alloc, film, played)
}
