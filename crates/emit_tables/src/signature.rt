//! A type of functions, and the numbers of types of this kind.

/// How many arguments of 64 bits stand behind the first, and whether there is a result.
#[derive(Clone, Copy, PartialEq, Eq)]
pub struct Signature {
    pub arguments: usize,
    pub has_result: bool,
}

/// The numbers of the types with this many arguments, without result and with one. One that is not there has the number
/// 6.
#[derive(Clone, Copy, PartialEq, Eq)]
pub struct Numbers {
    pub without: usize,
    pub giving: usize,
}
