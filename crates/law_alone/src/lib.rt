//! Laws alone: the theorem of separate compilation. There is no code here but what names it.
//!
//! - `specs/Alone` says it. `law_exchange_jobs` has it for what becomes of modules if that moves with their numbers.
//! - `proofs/Moving` shows that it does: what the checker answers of a definition and of a body (`law_exchange_types`,
//!   `law_exchange_bodies`), and what is emitted for it (`law_exchange_code`).
#![tactic(auto)]

ghost use Rattle.law_alone.specs.Alone.{BodiesAreSeparate, WhatComesAloneIsSo, AloneIsTogether};

/// What comes of a body depends on its text and on those of the definitions that it needs, and on nothing else.
pub fn bodies_are_separate()
    ensures { BodiesAreSeparate }
{}

/// What comes of a body that is compiled alone comes of it in each program that has it and the definitions that it needs.
pub fn what_comes_alone_is_so()
    ensures { WhatComesAloneIsSo }
{}

/// The bytes that `compile_module` makes of a module are those of each such program.
pub fn alone_is_together()
    ensures { AloneIsTogether }
{}
