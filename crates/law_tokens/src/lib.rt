//! Laws alone: what the tokens of a text say, without their places, tells them apart.
//!
//! By what its tokens say a definition gets its checksum. So two definitions with the same checksum have the same tokens, as far as
//! checksums tell bytes apart.
//!
//! - `specs/Telling` says the law.
//! - `proofs/Lines` cuts bytes into lines, and `proofs/InLine` shows that a token takes one. `proofs/Apart` tells two tokens apart by
//!   their lines, and `proofs/Telling` goes through both lists.
#![tactic(auto)]

ghost use Rattle.law_tokens.specs.Telling.{AreToldApart};

/// Texts whose tokens say the same have the same tokens, but for their places.
pub fn telling_law()
    ensures { AreToldApart }
{}
