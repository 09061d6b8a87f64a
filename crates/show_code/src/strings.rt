//! Strings in the text format.

ghost use Rattle.std.specs.Prelude.{◌≡◌, ◌<◌};
ghost use Rattle.std.specs.List.{flat_map};
ghost use Rattle.show_code.specs.Pages.{Puts};
ghost use Rattle.show_code.specs.Modules.{byte_text, hex_digit, is_plain, string_text};

use crate::page::Page;

/// The sign of a digit below 16.
fn hex_digit(digit: u8) -> u8
    requires { digit < 16 }
    ensures { result ≡ hex_digit digit }
{
    if digit < 10 { b'0' + digit } else { 87 + digit }
}

/// Whether a byte stands for itself in a string.
fn is_plain(byte: u8) -> bool
    ensures { result ≡ is_plain byte }
{
    byte >= b' ' && byte <= b'~' && byte != b'"' && byte != b'\\'
}

/// Puts a byte of a string.
#[tactic(auto, unfolding(crate::specs::Modules::byte_text))]
fn put_byte(page: &mut Page, byte: u8)
    ensures { Puts page.old page.new (byte_text byte) }
{
    if is_plain(byte) {
        page.put(&[byte]);
    } else {
        page.put(&[b'\\', hex_digit(byte / 16), hex_digit(byte % 16)]);
    }
}

/// Puts the bytes of a string.
fn put_bytes(page: &mut Page, bytes: &[u8])
    ensures { Puts page.old page.new (flat_map byte_text bytes.now) }
{
    for byte in bytes {
        put_byte(page, *byte);
    }
}

/// Puts a blank, and a string between quotes.
pub fn put_string(page: &mut Page, bytes: &[u8])
    ensures { Puts page.old page.new (string_text bytes.now) }
{
    page.put(b" \"");
    put_bytes(page, bytes);
    page.put(b"\"");
}
