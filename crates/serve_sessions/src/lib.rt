//! What an editor says of itself and of its texts: which pages it can open, how texts change, and what a request is asked of. What
//! `serve_programs` has is handed on.
#![tactic(auto)]

mod changes;
mod explanations;
mod params;

pub use changes::{change_text, close_text, open_text, path_in};
pub use explanations::{Explanations, explanations_for};
pub use params::{position_of, range_of, text_at};
pub use serve_programs::{
    Folder, Fresh, Program, Setting, Severity, Shown, Spot, View, all_shown, folder_of, length_at,
    programs_around, programs_with, read_text, refusals_of, roots_of, spare_of, view_for, view_of,
};
