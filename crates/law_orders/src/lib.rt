//! Why the modules of a program may be instantiated in any order, link first. There is no code here but what names the laws.
//!
//! - `specs/Renumbered` says which configurations differ in the numbers of their instances alone, and `proofs/Renumbered` that
//!   their runs are alike, reduction for reduction.
//! - `specs/Order` says which lists of modules are orders of a program, and `specs/Orders` what they do. `proofs/Linking`
//!   links one body, whichever were linked before it, `proofs/Marks` all of them in any order, and `proofs/Orders` compares
//!   two orders.
#![tactic(auto)]

ghost use Rattle.law_orders.specs.Orders.{OrdersBehave, OrdersLinkAlike};
ghost use Rattle.law_orders.specs.Renumbered.{RunsAreAlike};

/// Runs of the machine do not depend on the numbers of instances.
pub fn number_laws()
    ensures { RunsAreAlike }
{}

/// The modules of a program in any order, link first.
pub fn order_laws()
    // They link, and lead to what they lead to in start order, up to the numbers of instances.
    ensures links { OrdersLinkAlike }
    // So they do what the program does.
    ensures behave { OrdersBehave }
{}
