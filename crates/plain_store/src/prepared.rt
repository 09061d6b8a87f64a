//! Modules, and what is kept of them.

ghost use Rattle.std.specs.Prelude.{◌≡◌};
ghost use Rattle.plain_store.specs.Blanks.{known_blanks};

use crate::blanks::Kept;
use typed_tree::TypedModule;

/// A module of a program, and a variable of each type that it knows.
#[derive(Clone, Copy)]
pub struct Prepared<'a> {
    pub body: &'a TypedModule,
    pub kept: &'a [Kept],
    pub ghost known: { kept.now ≡ known_blanks body.now.types },
}
