//! What is offered, as an object of JSON.

use write_json::Json;

/// The numbers that the protocol has for a text as it stands, and for one with places to fill.
const PLAIN: u64 = 1;

const WITH_PLACES: u64 = 2;

/// A text that is written where the label would not do.
#[derive(Drop)]
pub struct Insert {
    pub text: String,
    /// Whether the text has places to fill.
    pub has_places: bool,
}

/// Writes the members that say what is written.
fn put_insert(insert: &Insert, json: &mut Json) {
    json.words_member("insertText", insert.text.as_str());
    let format = if insert.has_places {
        WITH_PLACES
    } else {
        PLAIN
    };
    json.number_member("insertTextFormat", format);
}

/// Writes the object of something that may be written: its label, if nothing else.
pub fn put_item(label: &[u8], kind: u32, detail: &[u8], insert: Option<&Insert>, json: &mut Json) {
    json.begin_object();
    json.bytes_member("detail", detail);
    if let Some(insert) = insert {
        put_insert(insert, json);
    }
    json.number_member("kind", u64::from(kind));
    json.bytes_member("label", label);
    json.end_object();
}
