//! Laws alone: behind the declarations of a block its names have the numbers that the rules give: variables in the order of
//! their declarations, procedures in the order of their headings.
//!
//! - `specs/Numbered` says what is known behind declarations of which nothing is reported (`AreNumbered`), `specs/Sensed`
//!   what names mean there (`AreSensed`), and `specs/Inside` what they mean where a procedure begins (`AreSensedInside`).
//! - `proofs/Walking` says which names declarations enter: names that are free, names that were begun, and procedures that
//!   await their headings. So a fact that these keep is kept by all declarations.
//! - `proofs/Variables` and `proofs/Declaring` number variables, and `proofs/Headings` procedures. `proofs/Blocks` puts both
//!   together.
//! - `proofs/Within` and `proofs/Counting` count procedures in procedures, `proofs/Finding` finds a heading by its number, and `proofs/Senses` says
//!   what each name means. `proofs/Formals` numbers formals, and `proofs/Inside` says what names mean behind them.
#![tactic(auto)]

ghost use Rattle.check_scope.specs.Elaborated.{every, least};
ghost use Rattle.law_typing.specs.Judging.{all_of_them, the_least};
ghost use Rattle.law_numbers.specs.Numbered.{BlocksAreNumbered};
ghost use Rattle.law_numbers.specs.Counted.{ModulesAreCounted, BlocksAreCounted};
ghost use Rattle.law_numbers.specs.Sensed.{SensesAreKnown};
ghost use Rattle.law_numbers.specs.Inside.{InsidesAreKnown};

/// If nothing is reported of the declarations of a block, its variables are numbered in order behind those that were there, and
/// its procedures in the order of their headings: in a module those that its definition has not declared, and in a procedure
/// all, each behind the procedures that stand in the one before.
pub fn number_laws()
    ensures every_rule { BlocksAreNumbered every }
    ensures least_rule { BlocksAreNumbered least }
{}

/// The numbers that the checker counts for procedures in procedures are those that are counted in the text: in each procedure
/// of a module behind those that stand in the procedures in front, and in a procedure of a procedure behind its own number.
pub fn counting_laws()
    ensures modules { ModulesAreCounted }
    ensures blocks { BlocksAreCounted }
{}

/// If nothing is reported of the declarations of a block, and if it is known what names mean where the block begins, it is
/// known what they mean behind them: each name of the block means what the rules of numbers say, and each other name what it
/// meant outside.
pub fn sense_laws()
    ensures every_rule { SensesAreKnown every all_of_them }
    ensures least_rule { SensesAreKnown least the_least }
{}

/// If it is known what names mean around a procedure, and each formal names its type, it is known what they mean where the
/// procedure begins: each formal is a local variable with its place in the heading, and each other name means what it means
/// around.
pub fn formal_laws()
    ensures every_rule { InsidesAreKnown every all_of_them }
    ensures least_rule { InsidesAreKnown least the_least }
{}
