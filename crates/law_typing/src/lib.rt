//! Laws alone: the checker answers expressions of bodies exactly as the rules of the language say, and so it does constant
//! expressions, conditions, and all statements.
//!
//! `def_typing` has the rules: what an expression has, and which rules are broken in it. These laws hold of the elaboration in
//! `check_stmt` and below, of all that it gathers and of the least refusal alike.
//!
//! - `specs/Judging` says what it is to answer exactly, and `specs/Exact` what is elaborated, when names stand for what a
//!   scope knows of them, and what is proved.
//! - `proofs/Combining` has a lemma for each form that elaborations are made of, and `proofs/Gathering` the two ways to gather.
//! - `proofs/Deciding` and `proofs/Shaping` say what tests decide, and what is seen of types.
//! - `proofs/Operating` and `proofs/Joining` have operators, `proofs/Singles` signs, NOT and functions of one value.
//! - `proofs/Placing`, `proofs/Selecting` and `proofs/Passing` have values at places, names with components, and arguments.
//! - `proofs/Fixing`, `proofs/Elements` and `proofs/Constants` have constant expressions, and `proofs/Applying` calls in them.
//! - `proofs/Calling` and `proofs/Routines` have calls, `proofs/Places` and `proofs/Finding` the layers of the tree,
//!   `proofs/Trees` what inductions go over, `proofs/Expressing` the induction over expressions of both sorts,
//!   `proofs/Assigning` conditions and assignments, `proofs/Changing` standard procedures that are statements, `proofs/Acting`
//!   all calls that are, and `proofs/Knowing` the names of scopes.
//! - `proofs/Returning` has RETURN and EXIT, `proofs/Looping` what stands before the statements of a FOR, `proofs/Selectors`
//!   the selector of a CASE, `proofs/Bounds` the bounds of its labels, `proofs/Labelling` each label, `proofs/Meeting` and
//!   `proofs/Twice` labels that are there twice, `proofs/Choosing` all of a CASE, `proofs/Opening` what a WITH opens,
//!   `proofs/Inside` what is known inside, and `proofs/Obeying` the induction over statements.
//! - `proofs/TypeNaming` has names of types, `proofs/Heading` headings of procedures, `proofs/Agreeing` whether one agrees with
//!   the heading of the definition, `proofs/Subranges` subranges, `proofs/Enumerating` enumerations, `proofs/TypeReading` other
//!   types as they are written but records, and `proofs/Recording` records and all types. `proofs/Declaring` says what a scope
//!   knows of the names of a block, and `proofs/Marking`, `proofs/Beginning` and `proofs/Sayings` that it does before the
//!   declarations, inside them and behind each. `proofs/Blocks` goes from one to the next, and `proofs/Lacking` finds
//!   procedures that lack a heading. `specs/Again` says what has to be known of scopes in which constant expressions of
//!   declarations are read again behind the headings, and `proofs/Rereading` what is reported of them.
#![tactic(auto)]

ghost use Rattle.check_scope.specs.Elaborated.{every, least};
ghost use Rattle.law_typing.specs.Judging.{all_of_them, the_least};
ghost use Rattle.law_typing.specs.Exact.{ExpressionsAreExact, ConstantsAreExact, ConditionsAreExact, AssignmentsAreExact, ActionsAreExact, ReturnsAreExact, ExitsAreExact, RunsAreExact, SelectorsAreExact, BoundsAreExact, StatementsAreExact, TypeNamesAreExact, HeadingsAreExact, SubrangesAreExact, BlocksAreExact, ScopesAreKnown};

/// An expression has a value exactly if no rule is broken in it, and the value stands for what the rules say that it has. Else
/// all that is gathered are broken rules, here or in a declaration, and each that is broken is gathered; and the least refusal
/// is a broken rule, and no broken rule is less, by place and then by number.
pub fn expression_laws()
    ensures every_rule { ExpressionsAreExact every all_of_them }
    ensures least_rule { ExpressionsAreExact least the_least }
{}

/// The same of an expression that has to be constant.
pub fn constant_laws()
    ensures every_rule { ConstantsAreExact every all_of_them }
    ensures least_rule { ConstantsAreExact least the_least }
{}

/// The same of an expression that has to be a condition.
pub fn condition_laws()
    ensures every_rule { ConditionsAreExact every all_of_them }
    ensures least_rule { ConditionsAreExact least the_least }
{}

/// The same of an assignment.
pub fn assignment_laws()
    ensures every_rule { AssignmentsAreExact every all_of_them }
    ensures least_rule { AssignmentsAreExact least the_least }
{}

/// The same of a call that is a statement: of a declared procedure, or of INC, DEC, INCL, EXCL, HALT and Put.
pub fn action_laws()
    ensures every_rule { ActionsAreExact every all_of_them }
    ensures least_rule { ActionsAreExact least the_least }
{}

/// The same of RETURN, with a value and without one.
pub fn return_laws()
    ensures every_rule { ReturnsAreExact every all_of_them }
    ensures least_rule { ReturnsAreExact least the_least }
{}

/// The same of EXIT.
pub fn exit_laws()
    ensures every_rule { ExitsAreExact every all_of_them }
    ensures least_rule { ExitsAreExact least the_least }
{}

/// The same of what stands before the statements of a FOR.
pub fn run_laws()
    ensures every_rule { RunsAreExact every all_of_them }
    ensures least_rule { RunsAreExact least the_least }
{}

/// The same of the selector of a CASE, with its base type.
pub fn selector_laws()
    ensures every_rule { SelectorsAreExact every all_of_them }
    ensures least_rule { SelectorsAreExact least the_least }
{}

/// The same of each bound of a label of a CASE, with its number, if it has one.
pub fn bound_laws()
    ensures every_rule { BoundsAreExact every all_of_them }
    ensures least_rule { BoundsAreExact least the_least }
{}

/// The same of a statement, with all statements inside.
pub fn statement_laws()
    ensures every_rule { StatementsAreExact every all_of_them }
    ensures least_rule { StatementsAreExact least the_least }
{}

/// The same of the name of a type, alone or behind a module's.
pub fn type_name_laws()
    ensures every_rule { TypeNamesAreExact every all_of_them }
    ensures least_rule { TypeNamesAreExact least the_least }
{}

/// The same of the heading of a procedure, whatever the names of its formals.
pub fn heading_laws()
    ensures every_rule { HeadingsAreExact every all_of_them }
    ensures least_rule { HeadingsAreExact least the_least }
{}

/// The same of a subrange, under a type or not.
pub fn subrange_laws()
    ensures every_rule { SubrangesAreExact every all_of_them }
    ensures least_rule { SubrangesAreExact least the_least }
{}

/// What is reported of the declarations of a block are exactly the rules that are broken in them, and in their constant
/// expressions as they are read again behind the headings, if all is known there that has to be; and what is known of names
/// behind them is what the rules say: constants, types, variables, and headings of procedures. If the module's own definition
/// awaits a heading, it has to agree with the definition's, and the procedure is the definition's, with its number. It is
/// reported exactly if a procedure of the definition lacks a heading.
pub fn block_laws()
    ensures every_rule { BlocksAreExact every all_of_them }
    ensures least_rule { BlocksAreExact least the_least }
{}

/// No scope lacks names that stand for what it knows of them, so the laws above speak of each.
pub fn scope_laws()
    ensures every_rule { ScopesAreKnown every all_of_them }
    ensures least_rule { ScopesAreKnown least the_least }
{}
