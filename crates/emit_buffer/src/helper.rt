//! The functions that each module has before its own.

ghost use Rattle.std.specs.Prelude.{◌≡◌};
ghost use Rattle.emit_buffer.specs.Helpers.{index_of};

/// A function that each module has before its own. The first two are imported.
#[derive(Clone, Copy, Debug, PartialEq, Eq)]
pub enum Helper {
    /// Prints a byte.
    Put,
    /// Ends the run with a number.
    Stop,
    /// Copies bytes.
    Copy,
    /// Fills bytes with zeros.
    Fill,
    /// Ends the run with a fault if a number is out of bounds.
    Check,
    /// The quotient, rounded down.
    Quotient,
    /// The remainder of that quotient.
    Remainder,
}

impl Helper {
    /// The index of the function in its module.
    pub fn index(self) -> usize
        ensures { result ≡ index_of self }
    {
        match self {
            Helper::Put => 0,
            Helper::Stop => 1,
            Helper::Copy => 2,
            Helper::Fill => 3,
            Helper::Check => 4,
            Helper::Quotient => 5,
            Helper::Remainder => 6,
        }
    }
}
