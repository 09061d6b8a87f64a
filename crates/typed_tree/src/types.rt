//! The identity of types.

ghost use Rattle.std.specs.Prelude.{◌≡◌};
ghost use Rattle.typed_tree.specs.Types.{is_one_home, are_same, is_integer, is_numeric};

/// Where a type is made.
#[derive(Clone, Copy, PartialEq, Eq)]
pub enum Home {
    /// Around all modules.
    Predeclared,
    /// In the module of this number.
    Module(u32),
}

/// A type: where it is made, and its number among the types that are made there. Types are the same if these agree.
#[derive(Clone, Copy, PartialEq, Eq)]
pub struct TypeNo {
    pub home: Home,
    pub number: usize,
}

pub const INTEGER: TypeNo = TypeNo {
    home: Home::Predeclared,
    number: 0,
};

pub const CARDINAL: TypeNo = TypeNo {
    home: Home::Predeclared,
    number: 1,
};

pub const BOOLEAN: TypeNo = TypeNo {
    home: Home::Predeclared,
    number: 2,
};

pub const CHAR: TypeNo = TypeNo {
    home: Home::Predeclared,
    number: 3,
};

pub const BITSET: TypeNo = TypeNo {
    home: Home::Predeclared,
    number: 4,
};

fn is_one_home(first: Home, second: Home) -> bool
    ensures { result ≡ is_one_home first second }
{
    match first {
        Home::Predeclared => match second {
            Home::Predeclared => true,
            Home::Module(_) => false,
        },
        Home::Module(m) => match second {
            Home::Predeclared => false,
            Home::Module(n) => m == n,
        },
    }
}

/// Whether two types are the same.
pub fn are_same(first: TypeNo, second: TypeNo) -> bool
    ensures { result ≡ are_same first second }
{
    is_one_home(first.home, second.home) && first.number == second.number
}

/// Whether it is INTEGER.
pub fn is_integer(t: TypeNo) -> bool
    ensures { result ≡ is_integer t }
{
    are_same(t, INTEGER)
}

/// Whether it is INTEGER or CARDINAL.
pub fn is_numeric(t: TypeNo) -> bool
    ensures { result ≡ is_numeric t }
{
    are_same(t, INTEGER) || are_same(t, CARDINAL)
}
