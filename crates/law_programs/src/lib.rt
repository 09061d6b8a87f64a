//! Laws alone: what the checker makes is typed, and the modules of every graph are as the code of their bodies asks.
//!
//! Read them in this order:
//!
//! - `trees`: expressions and statements are typed, wherever what they ask for is there.
//! - `names`: the names of a scope mean what is there, and declarations keep it so.
//! - `blocks`: so the bodies of procedures and of modules are typed.
//! - `programs`: the modules of a graph are well formed, valid, and as the code of their bodies asks.
//! - `typed_programs`: what their bodies ask for is there, so they are typed.
#![tactic(auto)]

mod blocks;
mod names;
mod programs;
mod trees;
mod typed_programs;

pub use blocks::typing_body_laws;
pub use names::{carried_laws, scope_laws};
pub use programs::{
    coherent_laws, formed_program_laws, formed_reach_laws, formed_tree_laws, graph_laws,
};
pub use trees::{typing_laws, typing_statement_laws};
pub use typed_programs::{
    typing_graph_laws, typing_name_laws, typing_table_laws, typing_want_laws,
};
