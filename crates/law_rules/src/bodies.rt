//! The checker answers programs and implementations, with all procedures inside, exactly as the rules of the
//! language say.
//!
//! `law_typing` has the declarations of a block, and its statements one by one; `importing` has imports. Here the procedures
//! of a block are entered: with their formals, with the names around them that are seen from inside, and with what their bodies
//! give back. So are the procedures in them, in any depth. Then a module is put together: its imports, its block, and the
//! headings that its definition awaits. These laws hold of the elaboration in `check_body`, of all that it gathers and of the
//! least refusal alike.
//!
//! - `specs/Blocks` says what is answered of a block, and `specs/Bodies` of a program and of an implementation.
//! - `proofs/BodiesKeeping` says what each declaration keeps of a scope, `proofs/Extending` that types stay, and `proofs/Layers` how all
//!   blocks are met.
//! - `proofs/Reading` has what names stand for behind all declarations of a block, `proofs/Placing` where they stand in its scope,
//!   `proofs/Seeing` which of them a procedure sees, and `proofs/Owning` which are names of variables of its own.
//! - `proofs/BodiesFormals` has formals and results, `proofs/Refusing` refusals of headings, and `proofs/Entering` all that is known
//!   where the block of a procedure begins.
//! - `proofs/Turns` says that the names of a block stand in its scope in the order of the text, `proofs/Insides` what is known of
//!   each scope in which a constant expression is read again, and `proofs/BlocksAgain` that this is so behind the declarations of a
//!   block.
//! - `proofs/Stating` has statements, and `proofs/Whole` the induction over blocks. `proofs/Moduling` puts a module together,
//!   `proofs/BodiesOutside` says what every module knows, `proofs/Programs` and `proofs/BodiesImplementing` what is known where they begin.
//! - The same induction says which typed tree a block has, by the rules of `def_typed`: `proofs/Meant` says what is known by
//!   number, `proofs/MeantLists` where procedures are put and how they are counted, and `proofs/MeantStatements` what statements mean.
//!   `proofs/MeantImports` has the modules that are imported, and `proofs/MeantModules` the typed module.

ghost use Rattle.check_scope.specs.Elaborated.{every, least};
ghost use Rattle.law_typing.specs.Judging.{all_of_them, the_least};
ghost use Rattle.law_rules.specs.Blocks.{BlocksAreWhole};
ghost use Rattle.law_rules.specs.Bodies.{ProgramsAreExact, ImplementationsAreExact, LonelyAreRefused, ImplementationsAreKnown};

/// What is reported of a block are exactly the rules that are broken in its declarations, also where their constant expressions
/// are read again, in the blocks of its procedures, in any depth, and in its statements.
pub fn inner_block_laws()
    ensures every_rule { BlocksAreWhole every all_of_them }
    ensures least_rule { BlocksAreWhole least the_least }
{}

/// A program has a typed module exactly if no rule is broken in its imports and in its block, with all that stands in it. Else
/// what is reported are exactly the rules that are broken there; and the least refusal is a broken rule, and no broken rule is
/// less: one that is reported only if nothing else is comes last, and else the place decides, and then the number.
pub fn program_laws()
    ensures { ProgramsAreExact least the_least }
{}

/// The same of implementations, by the table of their own definition. A procedure of the definition that has no heading in the
/// implementation is refused too.
pub fn implementation_laws()
    ensures least_rule { ImplementationsAreExact least the_least }
    ensures every_lonely { LonelyAreRefused every all_of_them }
    ensures least_lonely { LonelyAreRefused least the_least }
{}

/// No implementation lacks what names stand for before its block, so the law above speaks of each. For programs
/// `definition_scope_laws` says it.
pub fn implementation_scope_laws()
    ensures every_rule { ImplementationsAreKnown every all_of_them }
    ensures least_rule { ImplementationsAreKnown least the_least }
{}
