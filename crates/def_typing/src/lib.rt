//! The rules of the language as rules: what expressions have, and which rules are broken in them and in statements. There is
//! no code here, only definitions.
//!
//! - `specs/Shapes` says how types are made, and which headings agree.
//! - `specs/Amounts` has operators on scalars, and `specs/Operators` operators on all values.
//! - `specs/Imports` says what imports bring (`Brings`), and which rules are broken in them.
//! - `specs/Things` says what names stand for, what is taken as a value, what suits a type, and what a component is.
//! - `specs/Functions` has the standard functions, and which arguments formals take.
//! - `specs/Parts` has the parts of expressions, and where they begin.
//! - `specs/Constants` has constant expressions (`Fixes`), and which rules fail at their tokens (`FixedFails`).
//! - `specs/Expressions` has what expressions of bodies stand for (`Stands`, `Has`), and which rules are broken in them
//!   (`Broken`, `BrokenAsValue`) and in constant expressions (`FixedBroken`, `BrokenAsConstant`).
//! - `specs/Assignments` has assignments and conditions, and `specs/Actions` calls as statements.
//! - `specs/Returns` has RETURN and EXIT, `specs/Loops` what stands before the statements of a FOR, `specs/Fields` what a WITH
//!   opens, `specs/Cases` the selector of a CASE and its labels, and `specs/Statements` all statements (`Obeys`, `Broken`).
//! - `specs/TypeNames` has names of types, `specs/Headings` headings of procedures, `specs/Subranges` subranges, and
//!   `specs/TypeExprs` types as they are written (`IsTypeOf`, `BrokenType`), with the types that they make and the constants of
//!   enumerations that they bring (`Adds`). `specs/Declarations` says what the names of a block stand for
//!   (`StandsFor`), and which rules are broken in its declarations (`BrokenIn`), and `specs/Definitions` the same of a
//!   definition (`AllFollow`, `BrokenIn`).
#![tactic(auto)]
