//! Why valid modules that are linked never meet an instruction whose operands, labels or functions are not there. There is
//! no code here, only definitions and proofs.
//!
//! - `specs/Sound` says which configurations are well typed. Linking begins with one of these (`proofs/Linked`), and
//!   each reduction leads to one of these (`proofs/Soundness`).
//! - `specs/Ready` says what is there when an instruction begins, so that code need not test it (`proofs/Soundness`;
//!   `proofs/Uses` has lemmas for this code).
//! - `specs/Traps` says where an instruction may trap all the same (`proofs/Traps`).
//! - `specs/Ranges` says which numbers fit their types; each reduction keeps that (`proofs/Fitting`, `proofs/LinkedFit`).
#![tactic(auto)]
