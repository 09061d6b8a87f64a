//! Laws alone: the rules of the language read a block in one way alone.
//!
//! `law_rules` has that each block of a module is read by the rules, and that exactly the rules that are broken in this reading
//! are reported. Here no other reading can say something else, so nobody has to ask which one is meant. This holds of the
//! rules alone, with no checker.
//!
//! - `specs/Alike` says what two readings of a block have in common.
//! - `proofs/Computing` says that operators and standard functions make one thing at most of their operands, `proofs/Fixing` that
//!   a constant expression stands for one thing at most, and `proofs/Typing` that a type that is written is one type at most, and
//!   adds one thing.
//! - `proofs/Declaring` says that behind declarations a name stands for one thing at most, and that each declaration adds one
//!   thing. `proofs/Reading` is the induction over blocks with all procedures inside.
#![tactic(auto)]

ghost use Rattle.law_readings.specs.Alike.{ReadingsAreAlike, ModulesAreAlike};

/// Two readings of one block from one place and the same types end with the same types. The same rules are broken in both, both
/// lack the same headings of the definition, and the block has the same typed trees by both. So has a module.
pub fn reading_laws()
    ensures alike { ReadingsAreAlike }
    ensures modules { ModulesAreAlike }
{}
