//! Laws of separate compilation as a whole: what `m2 compile` writes of bodies and `m2 link` links is what a build gives. There is no
//! code here but what names the laws.
//!
//! - `specs/Whole` says what is written of a body that is compiled alone, and the laws.
//! - `proofs/Words` shows that names are letters and digits, and `proofs/Telling` that they are told as they are.
//! - `proofs/Sources` finds each text of a body's files among those of the program, `proofs/Places` each module, and
//!   `proofs/Importing` its imports. So it is a part of the program (`proofs/Parts`).
//! - `proofs/Building` says what a build gives by what comes of its modules, and `proofs/Whole` puts both side by side.
//! - `proofs/Fitting` shows that such parts fit together, `proofs/Refusing` goes after what is refused, and `proofs/Succeeding` after
//!   what is built.
//! - `proofs/Named` shows that modules have names, `proofs/Filling` which modules stand beside a body and its definitions, and
//!   `proofs/Needing` that imports break no rule there. So it is built (`proofs/Having`).
#![tactic(auto)]

ghost use Rattle.law_compiling.specs.Whole.{WhatIsWrittenIsPart, CompilingAndLinkingIsBuilding, WhatIsWrittenLinks, BodiesAreBuiltAlone, BodiesAreBuiltWithDefinitions, RefusedAloneIsRefused};

/// What is written of a body that is compiled alone is a part of each program that has it and its definitions.
pub fn what_is_written_is_a_part()
    ensures { WhatIsWrittenIsPart }
{}

/// Whoever compiles bodies of a program alone and links them gets what the build of the program gives.
pub fn compiling_and_linking_is_building()
    ensures { CompilingAndLinkingIsBuilding }
{}

/// What was written of the bodies of a program that is built is linked, and nothing is refused of it.
pub fn what_is_written_links()
    ensures { WhatIsWrittenLinks }
{}

/// Each body of a program that is built is built alone, if imports break no rule there.
pub fn bodies_are_built_alone()
    ensures { BodiesAreBuiltAlone }
{}

/// Each body of a program that is built is built alone, with the definitions that it needs.
pub fn bodies_are_built_with_definitions()
    ensures { BodiesAreBuiltWithDefinitions }
{}

/// What is refused where a body is compiled alone is refused in the program.
pub fn what_is_refused_alone_is_refused()
    ensures { RefusedAloneIsRefused }
{}
