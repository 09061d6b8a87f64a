//! The steps of a build for make.

use crate::nodes::{Node, Part};
use crate::steps::Steps;
use crate::words::{Reader, put_name, put_word};
use std::alloc::{AllocError, Global};
use write_text::Text;

/// What the file begins with.
const HEAD: &str = "# Written by m2 graph --format make\nM2 = m2\n\n";

/// Puts for each module that has a body a file in the folder of the modules, each in a line.
fn put_all(page: &mut Text, steps: &Steps<'_>, nodes: &[Node<'_>], reader: Reader, ending: &str) {
    for node in nodes {
        if node.body.is_some() {
            page.put(" \\\n    ");
            steps.put_made(page, reader, node.name.as_str(), ending);
        }
    }
}

/// Puts the step that links the program, which comes first, and the step that makes the folder.
fn put_link(page: &mut Text, steps: &Steps<'_>, program: &str, nodes: &[Node<'_>]) {
    steps.put_made(page, Reader::Make, "link", ".wasm");
    page.put(":");
    put_all(page, steps, nodes, Reader::Make, ".link");
    page.put("\n\t$(M2)");
    steps.put_link(page, program);
    page.put("\n\n");
    put_name(page, Reader::Make, steps.out);
    page.put(":\n\tmkdir -p");
    put_word(page, &[steps.out]);
    page.put("\n\n");
}

/// Puts the step that compiles a module.
fn put_step(page: &mut Text, steps: &Steps<'_>, node: &Node<'_>, body: &Part<'_>) {
    steps.put_made(page, Reader::Make, node.name.as_str(), ".link");
    page.put(": ");
    put_name(page, Reader::Make, body.file);
    if let Some(definition) = &node.definition {
        page.put(" ");
        put_name(page, Reader::Make, definition.file);
    }
    page.put(" | ");
    put_name(page, Reader::Make, steps.out);
    page.put("\n\t$(M2)");
    steps.put_shared(page);
    steps.put_own(page, node, body);
    put_word(page, &[body.file]);
    page.put("\n\n");
}

/// The steps of a build of this program as a file of make: a step for each body, and one that links them. The variable `M2` names
/// the program that is called. The only error is that memory ran out.
pub fn make_file(
    alloc: Global,
    steps: &Steps<'_>,
    program: &str,
    nodes: &[Node<'_>],
) -> Result<String, AllocError> {
    let mut page = Text::new(alloc);
    page.put(HEAD);
    put_link(&mut page, steps, program, nodes);
    for node in nodes {
        if let Some(body) = &node.body {
            put_step(&mut page, steps, node, body);
        }
    }
    page.put("-include");
    put_all(&mut page, steps, nodes, Reader::Include, ".d");
    page.put("\n");
    page.finish()
}
