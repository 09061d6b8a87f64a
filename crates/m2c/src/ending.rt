//! What comes of a compilation.

use crate::files::BuildFault;
use write_directory::SaveFault;

/// What comes of a compilation.
#[derive(Clone, Copy)]
pub enum Ending<'a> {
    /// Nothing was built, for this reason.
    Unbuilt(BuildFault),
    /// The file of this name could not be read.
    Unread(&'a str),
    /// The program was refused. True if all refusals were printed.
    Refused(bool),
    /// The program was built, and saving its modules came to this.
    Saved(Result<(), SaveFault>),
}
