//! Lines of a text.

use bstr::ByteSlice;

/// The line of a text with this number, counted from 1, without the LF, or CR and LF, that ends it. Behind the last line,
/// and for 0, a line is empty or the first.
pub fn line_at(text: &[u8], number: u32) -> &[u8] {
    let index = number.saturating_sub(1) as usize;
    text.lines().nth(index).unwrap_or(&[])
}
