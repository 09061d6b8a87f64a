//! What is asked of `m2 build`.

/// What is written of a program, and where.
#[derive(Clone, Copy)]
pub struct Wanted<'a> {
    /// The file that it reads.
    pub input: &'a Option<String>,
    /// The folder of its modules.
    pub out: &'a str,
    /// The file into which it is written of which files they were made.
    pub deps: &'a Option<String>,
    /// Whether the map of each module is written beside it.
    pub is_mapped: bool,
    /// Whether nothing of an earlier build is taken.
    pub is_fresh: bool,
}
