//! The imports as data.

use crate::nodes::{Node, Part};
use std::alloc::{AllocError, Global};
use write_json::Json;

/// Writes the array of these names.
fn put_names(json: &mut Json, names: &[String]) {
    json.begin_list();
    for name in names {
        json.words(name.as_str());
    }
    json.end_list();
}

/// Writes the object of one of the texts of a module, or null.
fn put_part(json: &mut Json, part: &Option<Part<'_>>) {
    match part {
        None => json.null(),
        Some(part) => {
            json.begin_object();
            json.words_member("file", part.file);
            json.name("imports");
            put_names(json, &part.imports);
            json.end_object();
        }
    }
}

/// Writes the object of a module.
fn put_node(json: &mut Json, node: &Node<'_>) {
    json.begin_object();
    json.name("body");
    put_part(json, &node.body);
    json.name("definition");
    put_part(json, &node.definition);
    json.words_member("name", node.name.as_str());
    json.flag_member("program", node.is_program);
    json.end_object();
}

/// Writes the objects of all modules.
fn put_nodes(json: &mut Json, nodes: &[Node<'_>]) {
    json.begin_list();
    for node in nodes {
        put_node(json, node);
    }
    json.end_list();
}

/// The imports of a program as JSON, in a line: `modules` has an object for each module, with its `name`, whether it is a `program`
/// module, and its two texts, `definition` and `body`, which are null or have their `file` and their `imports`; `lacking` has the
/// names of modules that are nowhere. The only error is that memory ran out.
pub fn data(alloc: Global, nodes: &[Node<'_>], lacking: &[String]) -> Result<Vec<u8>, AllocError> {
    let mut json = Json::new(alloc);
    json.begin_object();
    json.name("lacking");
    put_names(&mut json, lacking);
    json.name("modules");
    put_nodes(&mut json, nodes);
    json.end_object();
    let mut text = json.finish()?;
    text.push(b'\n')?;
    Ok(text)
}
