//! Definitions alone: other numbers of modules, and what becomes of types, tables and typed modules with them.
#![tactic(auto)]
