//! How far bytes of one sort go.

ghost use Rattle.std.specs.Prelude.{◌≡◌, ◌≤◌, length};
ghost use Rattle.std.specs.List.{prefix_len};
ghost use Rattle.scan_tokens.specs.Bytes.{is_run_byte, is_inside, is_printable};

#[tactic(auto, unfolding(crate::specs::Bytes::class))]
fn is_run_byte(byte: u8) -> bool
    ensures { result ≡ is_run_byte byte }
{
    // small letters come first, since most bytes are small letters
    if byte >= b'a' {
        return byte <= b'z';
    }
    matches!(byte, b'A'..=b'Z' | b'0'..=b'9')
}

/// How many letters and digits there are before anything else.
pub fn run_len(text: &[u8]) -> usize
    ensures value { result ≡ prefix_len is_run_byte text.now }
    ensures within { result ≤ length text.now }
{
    for (i, byte) in text.iter().enumerate() {
        if !is_run_byte(*byte) {
            return i;
        }
    }
    text.len()
}

#[tactic(auto, unfolding(crate::specs::Bytes::is_inside))]
fn is_inside(quote: u8, byte: u8) -> bool
    ensures { result ≡ is_inside quote byte }
{
    !(byte == quote || byte == b'\n')
}

/// How many bytes there are before the quote or the end of the line.
pub fn inside_len(quote: u8, text: &[u8]) -> usize
    ensures value { result ≡ prefix_len (is_inside quote) text.now }
    ensures within { result ≤ length text.now }
{
    for (i, byte) in text.iter().enumerate() {
        if !is_inside(quote, *byte) {
            return i;
        }
    }
    text.len()
}

#[tactic(auto, unfolding(crate::specs::Bytes::is_printable))]
fn is_printable(byte: u8) -> bool
    ensures { result ≡ is_printable byte }
{
    b' ' <= byte && byte <= b'~'
}

/// How many bytes there are before one that may not stand in a string.
pub fn printable_len(text: &[u8]) -> usize
    ensures value { result ≡ prefix_len is_printable text.now }
    ensures within { result ≤ length text.now }
{
    for (i, byte) in text.iter().enumerate() {
        if !is_printable(*byte) {
            return i;
        }
    }
    text.len()
}
