//! Why a module may be compiled where it has another number. There is no code here but what names the laws.
//!
//! - `specs/Sharing` says which programs have what a module needs, and the laws.
//! - `proofs/Extending` gives an exchange of numbers that takes given numbers to given numbers. `proofs/Matching` goes through lists of
//!   numbers that are exchanged.
//! - `proofs/Jobbing` has what is known of the jobs of one program. `proofs/Twins` finds for each job of a definition the job of the
//!   same name in another program, `proofs/Moving` shows that what becomes of both moves with their numbers, and `proofs/Coming` has
//!   the laws, also with premises on what each job needs (`comes_where`, `stays_where`, `alone_where`).
#![tactic(auto)]

ghost use Rattle.law_exchange_jobs.specs.Sharing.{WhatComesMoves, BodiesStay, WhatComesAloneComes, WhatIsMadeAloneComes};

/// What comes of a module moves with the numbers of modules.
pub fn what_comes_moves()
    ensures { WhatComesMoves }
{}

/// What comes of a body is the same in all programs that have it and the definitions that it needs.
pub fn bodies_stay()
    ensures { BodiesStay }
{}

/// What comes of a body where modules are compiled without others comes of it in each program that has it and the definitions
/// that it needs.
pub fn what_comes_alone_comes()
    ensures { WhatComesAloneComes }
{}

/// What is made of a body alone comes of it in each program that has it and the definitions that it needs.
pub fn what_is_made_alone_comes()
    ensures { WhatIsMadeAloneComes }
{}
