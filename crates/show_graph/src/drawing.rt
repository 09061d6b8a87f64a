//! A picture of the imports.

use crate::nodes::{Node, Part};
use std::alloc::{AllocError, Global};
use write_text::Text;

/// Whether a module is among those that a definition imports.
fn is_among(definition: &Option<Part<'_>>, name: &str) -> bool {
    match definition {
        None => false,
        Some(part) => part
            .imports
            .iter()
            .any(|it| it.as_bytes() == name.as_bytes()),
    }
}

/// Puts a line: words between quotes, and a style.
fn put_line(page: &mut Text, words: &[&str], style: &str) {
    page.put("  \"");
    page.put_all(words);
    page.put_all(&["\"", style, ";\n"]);
}

/// Puts the line of an import.
fn put_import(page: &mut Text, node: &Node<'_>, import: &str, style: &str) {
    put_line(page, &[node.name.as_str(), "\" -> \"", import], style);
}

/// Puts the lines of what a definition imports.
fn put_definition(page: &mut Text, node: &Node<'_>) {
    if let Some(part) = &node.definition {
        for import in &part.imports {
            put_import(page, node, import.as_str(), "");
        }
    }
}

/// Puts the lines of what a body imports beyond its definition.
fn put_body(page: &mut Text, node: &Node<'_>) {
    let Some(part) = &node.body else {
        return;
    };
    let style = if node.is_program {
        ""
    } else {
        " [style=dashed]"
    };
    for import in &part.imports {
        if !is_among(&node.definition, import.as_str()) {
            put_import(page, node, import.as_str(), style);
        }
    }
}

/// Puts the module itself, and what it imports.
fn put_node(page: &mut Text, node: &Node<'_>) {
    let style = if node.is_program { " [style=bold]" } else { "" };
    put_line(page, &[node.name.as_str()], style);
    put_definition(page, node);
    put_body(page, node);
}

/// The imports of a program in the language of graphviz. A line leads from each module to those that it imports: a dashed one if
/// its implementation alone does. The program module is bold, and a module that is nowhere dotted. The only error is that memory ran
/// out.
pub fn picture(
    alloc: Global,
    nodes: &[Node<'_>],
    lacking: &[String],
) -> Result<String, AllocError> {
    let mut page = Text::new(alloc);
    page.put("digraph imports {\n  node [shape=box];\n");
    for node in nodes {
        put_node(&mut page, node);
    }
    for name in lacking {
        put_line(&mut page, &[name.as_str()], " [style=dotted]");
    }
    page.put("}\n");
    page.finish()
}
