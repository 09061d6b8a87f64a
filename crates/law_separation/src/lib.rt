//! Why a module may be compiled without the other bodies, and without the definitions that it does not need. There is no code here
//! but what names the law.
//!
//! - `specs/Alike` says which programs share a module and what it needs, and what comes of it in both.
//! - `proofs/Replaced` puts other modules into files, which stay in their order. `proofs/Numbered` shows that the jobs stay in
//!   theirs, `proofs/Needing` that a job needs definitions which its module needs, and `proofs/Resulting` that what becomes of
//!   a module stays the same.
#![tactic(auto)]

ghost use Rattle.law_separation.specs.Alike.{OtherFilesDoNotMatter};

/// What comes of a module depends on its own text and on the definitions that it needs.
pub fn other_files()
    ensures { OtherFilesDoNotMatter }
{}
