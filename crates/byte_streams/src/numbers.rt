ghost use Rattle.std.specs.Prelude.{◌≡◌, ◌<◌, ◌++◌, OnOk};
ghost use Rattle.byte_streams.specs.Hex.{hex, hex_digit};

use itoa::{Buffer, Integer};
use std::alloc::AllocError;

/// Appends a text, and a number behind it.
pub fn push_number<N: Integer>(
    text: &mut Vec<u8>,
    before: &[u8],
    number: N,
) -> Result<(), AllocError>
    ensures { OnOk result (text.new.items ≡ text.old.items ++ (before.now ++ N.text number)) }
{
    let mut digits = Buffer::new();
    text.extend_from_slice(before)?;
    text.extend_from_slice(digits.format(number).as_bytes())
}

fn hex_digit(number: u8) -> u8
    requires { number < 16 }
    ensures { result ≡ hex_digit number }
{
    if number < 10 {
        b'0' + number
    } else {
        b'a' + (number - 10)
    }
}

// Appends so many hexadecimal digits of a number, the lowest last.
fn push_digits(text: &mut Vec<u8>, digits: u32, number: u64) -> Result<(), AllocError>
    ensures { OnOk result (text.new.items ≡ text.old.items ++ hex digits number) }
{
    if digits == 0 {
        return Ok(());
    }
    push_digits(text, digits - 1, number / 16)?;
    text.push(hex_digit((number % 16) as u8))?;
    Ok(())
}

/// Appends a text, and a number in 16 hexadecimal digits behind it.
pub fn push_hex(text: &mut Vec<u8>, before: &[u8], number: u64) -> Result<(), AllocError>
    ensures { OnOk result (text.new.items ≡ text.old.items ++ (before.now ++ hex 16 number)) }
{
    text.extend_from_slice(before)?;
    push_digits(text, 16, number)
}
