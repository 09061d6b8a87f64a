//! Laws alone: expressions mean the same with other numbers of modules.
//!
//! - `specs/Moving` says what it is that a part moves with the scope: it means the same there, with the numbers
//!   exchanged. `specs/Steps` has what becomes of statements.
//! - `specs/Laws` has the laws that statements and bodies stand on, and `specs/InTurn` those of functions that take one
//!   part after the other. The induction over expressions is that of `law_exchange_types`; `proofs/Knot` takes the laws
//!   from there.
//! - `proofs/Given` has each law for whatever way of gathering broken rules. `proofs/Effects` and `Done` have what
//!   calls of standard procedures and of others do.
#![tactic(auto)]

ghost use Rattle.check_scope.specs.Elaborated.{least, every};
ghost use Rattle.law_exchange_exprs.specs.Laws.{ExpressionsMove, DesignatorsMove, SelectorsMove, ItemsMove, ConstantPartsMove, ArgumentsMove, ConstantsMove, ValuesMove, FirstNamesMove, FieldsMove, CallsMove};
ghost use Rattle.law_exchange_exprs.specs.InTurn.{LooksMove, ActualsMove, UsesMove, FactorsMove, TermsMove, RelationsMove, ConstantFactorsMove, ConstantTermsMove, ConstantPicksMove, ItemsInMove, FactorsInMove, TermsInMove, PicksInMove, ActualsInMove, UsesInMove, LooksInMove};

/// Expressions, designators, selectors, elements of sets, constant expressions and arguments.
pub fn expression_laws()
    ensures every_rule { ExpressionsMove every × DesignatorsMove every × SelectorsMove every
        × ItemsMove every × ConstantPartsMove every × ArgumentsMove every }
    ensures least_rule { ExpressionsMove least × DesignatorsMove least × SelectorsMove least
        × ItemsMove least × ConstantPartsMove least × ArgumentsMove least }
{}

/// What statements ask of expressions, and calls as statements.
pub fn use_laws()
    ensures every_rule { ConstantsMove every × ValuesMove every × FirstNamesMove every
        × FieldsMove every × CallsMove every }
    ensures least_rule { ConstantsMove least × ValuesMove least × FirstNamesMove least
        × FieldsMove least × CallsMove least }
{}

/// What takes one part after the other: operands, selectors, arguments, and elements of sets.
pub fn turn_laws()
    ensures every_rule { LooksMove every × ActualsMove every × UsesMove every × FactorsMove every
        × TermsMove every × RelationsMove every }
    ensures least_rule { LooksMove least × ActualsMove least × UsesMove least × FactorsMove least
        × TermsMove least × RelationsMove least }
    ensures constants { ConstantFactorsMove × ConstantTermsMove × ConstantPicksMove × ItemsInMove }
    ensures values { FactorsInMove × TermsInMove × PicksInMove × ActualsInMove × UsesInMove
        × LooksInMove }
{}
