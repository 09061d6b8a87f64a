//! Parts of answers.

use serve_texts::{Encoding, Position, Text};
use write_json::Json;

/// Writes a place.
pub fn put_position(position: Position, json: &mut Json) {
    json.begin_object();
    json.number_member("character", u64::from(position.character));
    json.number_member("line", u64::from(position.line));
    json.end_object();
}

/// Writes the range of the bytes of a text from one to another.
pub fn put_range(text: &Text, encoding: Encoding, begin: usize, end: usize, json: &mut Json) {
    json.begin_object();
    json.name("end");
    put_position(text.position_of(end, encoding), json);
    json.name("start");
    put_position(text.position_of(begin, encoding), json);
    json.end_object();
}

/// An edit: the bytes from one to another become others.
#[derive(Clone, Copy)]
pub struct Edit<'a> {
    pub begin: usize,
    pub end: usize,
    pub new: &'a [u8],
}

/// Writes an edit of a text.
pub fn put_edit(text: &Text, encoding: Encoding, edit: Edit<'_>, json: &mut Json) {
    json.begin_object();
    json.bytes_member("newText", edit.new);
    json.name("range");
    put_range(text, encoding, edit.begin, edit.end, json);
    json.end_object();
}
