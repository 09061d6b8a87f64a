//! Where two texts differ.

ghost use Rattle.std.specs.Prelude.{◌≡◌, ◌↔◌, IsNone};

/// The first place at which a text is another than the wanted one.
#[derive(Clone, Copy, PartialEq, Eq)]
pub struct Difference {
    /// The line, from 1.
    pub line: usize,
    /// The byte of this line, from 1.
    pub column: usize,
    /// How many bytes stand before this line.
    pub line_begin: usize,
}

/// The end of a line.
pub const LINE_FEED: u8 = b'\n';

/// How many bytes the texts have in common at the front.
fn common(printed: &[u8], wanted: &[u8]) -> usize {
    for (at, (one, other)) in printed.iter().zip(wanted).enumerate() {
        if one != other {
            return at;
        }
    }
    printed.len().min(wanted.len())
}

/// The place behind these bytes.
fn place_behind(front: &[u8]) -> Difference {
    let mut line = 1_usize;
    let mut line_begin = 0;
    for (at, byte) in front.iter().enumerate() {
        if *byte == LINE_FEED {
            line = line.saturating_add(1);
            line_begin = at + 1;
        }
    }
    Difference {
        line,
        column: front.len().saturating_sub(line_begin).saturating_add(1),
        line_begin,
    }
}

/// The first place at which the texts differ, if they do.
pub fn first_difference(printed: &[u8], wanted: &[u8]) -> Option<Difference>
    ensures { IsNone result ↔ (printed.now ≡ wanted.now) }
{
    if printed == wanted {
        return None;
    }
    let front = common(printed, wanted);
    Some(place_behind(printed.get(..front).unwrap_or(printed)))
}
