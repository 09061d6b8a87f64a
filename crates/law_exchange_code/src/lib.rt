//! Laws alone: what becomes of a module stays the same under other numbers of modules.
//!
//! - `specs/MovedTrees` says what becomes of typed trees and typed modules under other numbers, and `specs/ByParts` what that
//!   is of each form of a tree.
//! - `specs/Stays` has the laws.
#![tactic(auto)]

ghost use Rattle.law_exchange_code.specs.ByParts.{MovesByParts};
ghost use Rattle.law_exchange_code.specs.Stays.{CodeStays, StorageStays};

/// Under other numbers a tree has the same form, and its types and parts have the other numbers.
pub fn tree_laws()
    ensures { MovesByParts }
{}

/// Numbers of modules do not matter to what is emitted, and to whether the storage is too large.
pub fn code_laws()
    ensures code { CodeStays }
    ensures storage { StorageStays }
{}
