ghost use Rattle.std.specs.Prelude.{◌≡◌, ◌++◌, OnOk};
ghost use Rattle.page_text.specs.Escapes.{escaped, escaped_byte};

use std::alloc::AllocError;

fn push_byte(page: &mut Vec<u8>, byte: u8) -> Result<(), AllocError>
    ensures { OnOk result (page.new.items ≡ page.old.items ++ escaped_byte byte) }
{
    if byte == b'<' {
        return page.extend_from_slice(b"\\u003c");
    }
    page.extend_from_slice(&[byte])
}

/// Appends a text with each `<` as `\u003c`. One that has none is copied at once.
#[tactic(auto, using(crate::proofs::Marks::unmarked))]
fn push_escaped(page: &mut Vec<u8>, text: &[u8]) -> Result<(), AllocError>
    ensures { OnOk result (page.new.items ≡ page.old.items ++ escaped text.now) }
{
    if !text.contains(&b'<') {
        return page.extend_from_slice(text);
    }
    'bytes: for byte in text {
        push_byte(page, *byte)?;
    }
    Ok(())
}

/// Appends a fixed part, and behind it a text that is put in.
pub fn push_held(page: &mut Vec<u8>, before: &str, text: &[u8]) -> Result<(), AllocError>
    ensures { OnOk result (page.new.items ≡ page.old.items ++ (before.now ++ escaped text.now)) }
{
    page.extend_from_slice(before.as_bytes())?;
    push_escaped(page, text)
}
