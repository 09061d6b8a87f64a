//! Why modules that were compiled alone link to what a build gives. There is no code here but what names the laws.
//!
//! - `specs/Parts` says which parts are those of a program, and the laws.
//! - `proofs/Thinning` shows that a walk comes to the same nodes where those are left out that were entered before, and
//!   `proofs/Naming` that a part leaves out no other imports.
//! - `proofs/Pairing` finds for each empty module the module of the program, and where walks go from both. `proofs/Linking` puts the
//!   walks side by side, and the modules that start.
//! - `proofs/Accepted` goes through the rules that are held against empty modules. `proofs/Counting` and `proofs/Alone` show that no
//!   two are of one sort and name, and `proofs/Passed` that nothing is reported where no module breaks a rule.
//! - `proofs/Single`, `proofs/Circles`, `proofs/Finding` and `proofs/Standing` have what is known of a program, and of empty modules.
#![tactic(auto)]

ghost use Rattle.law_linking.specs.Parts.{PartsStartInOrder, LinkingIsBuilding, PartsAreAccepted};

/// Empty modules that stand for the parts of a program start in the order in which its modules start.
pub fn parts_start_in_order()
    ensures { PartsStartInOrder }
{}

/// The parts of a program, in whichever order they are given, link to the bytes that the build of the program gives.
pub fn linking_is_building()
    ensures { LinkingIsBuilding }
{}

/// Parts of a program are not refused for what they import, if whatever they import is there.
pub fn parts_are_accepted()
    ensures { PartsAreAccepted }
{}
