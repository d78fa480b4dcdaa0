// What a page begins with: its fixed head, and what was read from files.
ghost use Rattle.std.specs.Prelude.{◌≡◌, ◌++◌, OnOk};
ghost use Rattle.page_text.specs.Escapes.{escaped};
ghost use Rattle.page_text.specs.Pages.{sources_text};

use crate::body::BODY;
use crate::escaped::push_held;
use crate::style::STYLE;
use std::alloc::AllocError;

pub const LEVEL: &str = "</script>\n<script type=\"application/json\" id=\"level\">";

pub const SCRIPT: &str = "</script>\n<script type=\"text/plain\" id=\"script\">";

fn push_named(page: &mut Vec<u8>, style: &str, body: &str, name: &[u8]) -> Result<(), AllocError>
    ensures { OnOk result (page.new.items ≡ page.old.items ++ (style.now ++ body.now ++ escaped name.now)) }
{
    page.extend_from_slice(style.as_bytes())?;
    push_held(page, body, name)
}

/// Appends the head of a page, the level's name, and the bytes of level and script as their files hold them; each `<` of
/// these is `\u003c`, which in a level's JSON means the same. Where memory is refused a first part of it is appended.
pub fn push_sources(
    page: &mut Vec<u8>,
    name: &[u8],
    level: &[u8],
    script: &[u8],
) -> Result<(), AllocError>
    ensures { OnOk result (page.new.items ≡ page.old.items ++ sources_text name.now level.now script.now) }
{
    push_named(page, STYLE, BODY, name)?;
    push_held(page, LEVEL, level)?;
    push_held(page, SCRIPT, script)
}
