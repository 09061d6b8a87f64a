//! Laws alone: the typed tree that the checker answers is the one that the rules of the language give.
//!
//! `def_typed` has the rules: what the typed tree of an expression and of a statement is. These laws hold of the elaboration in
//! `check_stmt` and below, whether it gathers all refusals or the least. Each says two things of what is answered: that it is
//! a typed tree by the rules, and that there is no other.
//!
//! - `specs/Typed` says what is known of names at a place of a body, and what is proved.
//! - `proofs/Meant` has a lemma for each form that elaborations are made of, and `proofs/Contents` one on types that are no arrays
//!   and no records.
//! - `proofs/Operators` and `proofs/Values` have operators, signs and the code of values, `proofs/Designators` names with
//!   components and values at places that ask for a type, `proofs/Arguments` arguments, `proofs/Calls` calls in expressions,
//!   and `proofs/Expressions` the induction over expressions.
//! - `proofs/Assigning` has assignments, and where an array or a record is, `proofs/Measuring` scalars by their own type,
//!   `proofs/Acting` calls that are statements, `proofs/Looping` what stands before the statements of a FOR, `proofs/Labels`
//!   labels of CASE, `proofs/Inside` what names mean inside a WITH, and `proofs/Statements` the induction over statements.
#![tactic(auto)]

ghost use Rattle.check_scope.specs.Elaborated.{every, least};
ghost use Rattle.law_typing.specs.Judging.{all_of_them, the_least};
ghost use Rattle.law_typed.specs.Typed.{DesignatorsAreNamed, ExpressionsAreNamed, ExpressionsAreComputed, ValuesAreGiven, ArgumentsArePassed, StatementsAreMeant};

/// If a designator is answered, it names what is answered: a variable or a component of one with its place, an open array, a
/// procedure or a module. It names nothing else.
pub fn designator_laws()
    ensures every_rule { DesignatorsAreNamed every all_of_them }
    ensures least_rule { DesignatorsAreNamed least the_least }
{}

/// If an expression is answered with code, the code computes the expression by the rules, and no other typed tree does.
pub fn expression_laws()
    ensures every_rule { ExpressionsAreComputed every all_of_them }
    ensures least_rule { ExpressionsAreComputed least the_least }
{}

/// The same of an expression at a place that asks for a type, where a constant gets this type; of arguments, each beside its
/// formal; and of an expression that is a designator, which names what is answered and nothing else.
pub fn value_laws()
    ensures every_rule { ValuesAreGiven every all_of_them × ArgumentsArePassed every all_of_them
        × ExpressionsAreNamed every all_of_them }
    ensures least_rule { ValuesAreGiven least the_least × ArgumentsArePassed least the_least
        × ExpressionsAreNamed least the_least }
{}

/// If a statement is answered, it means the typed statement that is answered, with all statements inside, and nothing else.
pub fn statement_laws()
    ensures every_rule { StatementsAreMeant every all_of_them }
    ensures least_rule { StatementsAreMeant least the_least }
{}
