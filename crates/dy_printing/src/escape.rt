//! Texts between quotes.

ghost use Rattle.std.specs.Prelude.{◌≡◌, ◌<◌, ◌++◌, OnOk};
ghost use Rattle.dy_printing.specs.Escapes.{hexadecimal_digit, escaped_byte, quoted};

use std::alloc::AllocError;

fn hexadecimal_digit(digit: u8) -> u8
    requires { digit < 16 }
    ensures { result ≡ hexadecimal_digit digit }
{
    if digit < 10 {
        b'0' + digit
    } else {
        b'a' - 10 + digit
    }
}

/// A byte as it stands between these quotes.
fn write_escaped(quote: u8, byte: u8, into: &mut Vec<u8>) -> Result<(), AllocError>
    ensures { OnOk result (into.new.items ≡ into.old.items ++ escaped_byte quote byte) }
{
    if byte == b'\\' || byte == quote {
        into.extend_from_slice(&[b'\\', byte])
    } else if byte == b'\n' {
        into.extend_from_slice(b"\\n")
    } else if byte == b'\r' {
        into.extend_from_slice(b"\\r")
    } else if byte == b'\t' {
        into.extend_from_slice(b"\\t")
    } else if 32 <= byte && byte < 127 {
        into.extend_from_slice(&[byte])
    } else {
        let high = hexadecimal_digit(byte / 16);
        let low = hexadecimal_digit(byte % 16);
        into.extend_from_slice(&[b'\\', b'<', high, low, b'>'])
    }
}

/// Bytes between quotes.
pub(crate) fn write_quoted(quote: u8, bytes: &[u8], into: &mut Vec<u8>) -> Result<(), AllocError>
    ensures { OnOk result (into.new.items ≡ into.old.items ++ quoted quote bytes.now) }
{
    into.push(quote)?;
    for byte in bytes {
        write_escaped(quote, *byte, into)?;
    }
    into.push(quote)?;
    Ok(())
}
