//! Classes of bytes.

ghost use Rattle.std.specs.Prelude.{◌≡◌};
ghost use Rattle.scan_tokens.specs.Bytes.{class};

/// What a byte can begin.
#[derive(Clone, Copy)]
pub enum Class {
    Space,
    Letter,
    Digit,
    Quote,
    /// An operator or delimiter, or nothing.
    Other,
}

#[tactic(auto, unfolding(crate::specs::Bytes::class))]
pub fn class_of(byte: u8) -> Class
    ensures { result ≡ class byte }
{
    match byte {
        b' ' | b'\t' | b'\n' | b'\r' => Class::Space,
        b'A'..=b'Z' | b'a'..=b'z' => Class::Letter,
        b'0'..=b'9' => Class::Digit,
        b'"' | b'\'' => Class::Quote,
        _ => Class::Other,
    }
}
