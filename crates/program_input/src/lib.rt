//! What a program reads, as a module of it: the bytes of a file or of standard input become the implementation of
//! `InputBytes`.
#![tactic(auto)]

mod files;
mod reading;

pub use files::{
    INPUT_MODULE, READER_FILE, READER_TEXT, has_input, place_of_input, put_input, reader_of,
};
pub use input_module::InputFault;
pub use reading::read_input;
