//! How large names, tokens and expressions are.

use m2_tree::{Expr, Name, Token};
use std::mem::size_of;

#[test]
fn has_small_tokens_and_trees(rt: HostRuntime) {
    assert!(rt; size_of::<Name>() <= 24);
    assert!(rt; size_of::<Token>() <= 32);
    assert!(rt; size_of::<Expr>() <= 72);
}
