//! What requests are asked of.

use serde_json::Value;
use serve_texts::Position;

/// The text at this path inside of params.
pub fn text_at<'a>(params: &'a Value, path: &str) -> Option<&'a str> {
    params.pointer(path).and_then(Value::as_str)
}

/// A number of 32 bits, or the greatest one for any that is greater.
fn narrow(number: u64) -> u32 {
    match u32::try_from(number) {
        Ok(narrow) => narrow,
        Err(_) => u32::MAX,
    }
}

/// The place that an object has.
pub fn position_of(object: &Value) -> Option<Position> {
    let line = object.get("line").and_then(Value::as_u64)?;
    let character = object.get("character").and_then(Value::as_u64)?;
    Some(Position {
        line: narrow(line),
        character: narrow(character),
    })
}

/// The two places that an object has.
pub fn range_of(object: &Value) -> Option<(Position, Position)> {
    let begin = position_of(object.get("start")?)?;
    let end = position_of(object.get("end")?)?;
    Some((begin, end))
}
