//! Letters in the units of an encoding.

ghost use Rattle.std.specs.Prelude.{◌≤◌, length};

/// The units in which a client counts the letters of a line.
#[derive(Clone, Copy, Debug, PartialEq, Eq)]
pub enum Encoding {
    /// Bytes.
    Utf8,
    /// Units of 16 bits, of which a letter has one or two.
    Utf16,
}

/// The first byte of a letter of four bytes, or more.
const FIRST_OF_FOUR: u8 = 0xF0;

/// The bits that tell a byte inside of a letter, and what they are then.
const INSIDE_MASK: u8 = 0xC0;

const INSIDE: u8 = 0x80;

impl Encoding {
    /// How many units begin at a byte: none at a byte inside of a letter, unless bytes are counted.
    pub fn units_at(self, byte: u8) -> u32 {
        let is_inside = byte & INSIDE_MASK == INSIDE;
        match self {
            Encoding::Utf8 => 1,
            Encoding::Utf16 if is_inside => 0,
            Encoding::Utf16 if byte >= FIRST_OF_FOUR => 2,
            Encoding::Utf16 => 1,
        }
    }

    /// How many units these bytes have.
    pub fn units_of(self, bytes: &[u8]) -> u32 {
        let mut units: u32 = 0;
        for byte in bytes {
            units = units.saturating_add(self.units_at(*byte));
        }
        units
    }

    /// How many bytes stand in front of the letter behind so many units: all, if there are fewer units.
    pub fn bytes_before(self, bytes: &[u8], wanted: u32) -> usize
        ensures { result ≤ length bytes.now }
    {
        let mut units: u32 = 0;
        for (at, byte) in bytes.iter().enumerate() {
            let here = self.units_at(*byte);
            if here > 0 && units >= wanted {
                return at;
            }
            units = units.saturating_add(here);
        }
        bytes.len()
    }
}
