//! Laws of texts: every text has tokens or a refusal, and every list of tokens a tree or a refusal. There is no code here but
//! what names the laws.
//!
//! - `specs/Laws` says what a text and what tokens are read as, and that it is one thing and no other.
//! - `proofs/Texts` takes one member after another from the front of a text, until none is left or something is refused.
//! - `proofs/Trees` asks the reading by one token ahead of `def_grammar`, which answers for all tokens.
#![tactic(auto)]

ghost use Rattle.law_texts.specs.Laws.{TextsAreScanned, TokensAreParsed};

/// Every text has tokens or a refusal, and only one of them.
pub fn text_laws()
    ensures { TextsAreScanned }
{}

/// Every list of tokens has a tree or a refusal, and only one of them.
pub fn tree_laws()
    ensures { TokensAreParsed }
{}
