//! Faults and their numbers.

ghost use Rattle.std.specs.Prelude.{◌≡◌};
ghost use Rattle.m2_rule.specs.FaultNumber.{fault_number};

/// What ends the run of a program before its end.
#[derive(Clone, Copy, Debug, PartialEq, Eq)]
pub enum Fault {
    /// 1: a value outside of its type.
    OutOfRange,
    /// 2: a result outside of its type.
    Overflow,
    /// 3: an index outside of the array.
    Index,
    /// 4: a divisor below 1.
    Divisor,
    /// 5: a CASE without a label for the value, and without ELSE.
    NoLabel,
    /// 6: a function that ends without RETURN.
    NoReturn,
    /// 7: a call of a procedure variable without a procedure.
    NoProcedure,
    /// 8: no room for the variables of a call.
    Storage,
    /// 9: HALT.
    Halt,
}

impl Fault {
    /// The number with which the run ends.
    pub fn number(self) -> u32
        ensures { result ≡ fault_number self }
    {
        match self {
            Fault::OutOfRange => 1,
            Fault::Overflow => 2,
            Fault::Index => 3,
            Fault::Divisor => 4,
            Fault::NoLabel => 5,
            Fault::NoReturn => 6,
            Fault::NoProcedure => 7,
            Fault::Storage => 8,
            Fault::Halt => 9,
        }
    }
}
