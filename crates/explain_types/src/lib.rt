//! What meets at a refused place: the types on both sides of an operator or an assignment, what a formal takes and what is given.
//! The checker says where a rule is broken, and not what it found there. So what stands there is tried by itself: a statement
//! that only some types pass is put in front, and the compiler says whether it stands.
#![tactic(auto)]

mod given;
mod trial;
mod wanted;
mod words;

pub use words::type_words;
