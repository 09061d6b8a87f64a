//! Functions that are known by their code, whatever module they come from: what a call of one comes to, after how many
//! reductions, and how they are recognised when modules are linked.
#![tactic(auto)]

ghost use Rattle.wasm_known.specs.Known.{BoundsReturn, CheckReturns, CopyReturns, DivReturns, FillReturns, ModReturns};

mod codes;
mod table;

pub use table::{KnownFunction, known_at, known_functions};

/// What calls of known functions come to.
pub fn known_laws()
    // A number between its bounds stays on the stack, after 14 reductions.
    ensures check_returns { CheckReturns }
    // After 17, the constants in front of the call among them.
    ensures bounds_return { BoundsReturn }
    // Bytes are set to 0, after 16 reductions for each and 7 more.
    ensures fill_returns { FillReturns }
    // Bytes are copied, after 21 reductions for each and 7 more.
    ensures copy_returns { CopyReturns }
    // The quotient is rounded down, after 31 reductions, and the remainder is from 0 up, after 32.
    ensures div_returns { DivReturns }
    ensures mod_returns { ModReturns }
{}
