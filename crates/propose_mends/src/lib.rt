//! Mends that may help where a text is refused: edits, each with a sentence, the likeliest first. Nothing is known of them but that
//! they are likely: who shows one tries it first.
#![tactic(auto)]

mod conversions;
mod grammar;
mod imports;
mod likely;
mod names;
mod scopes;
mod types;

pub use likely::proposals;
pub use refused_text::{
    Export, Source, exports_of, free_name, importing_program, known_way, program_around,
};
pub use text_mends::Mend;
