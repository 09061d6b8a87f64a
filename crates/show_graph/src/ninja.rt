//! The steps of a build for ninja.

use crate::nodes::{Node, Part};
use crate::steps::Steps;
use crate::words::{Reader, put_name};
use std::alloc::{AllocError, Global};
use write_text::Text;

/// What the file begins with.
const HEAD: &str =
    "# Written by m2 graph --format ninja\nninja_required_version = 1.7\nm2 = m2\n\n";

/// Puts the rules.
fn put_rules(page: &mut Text, steps: &Steps<'_>, program: &str) {
    page.put("rule compile\n  command = $m2");
    steps.put_shared(page);
    page.put(" $words $in\n  deps = gcc\n  restat = 1\n\nrule link\n  command = $m2");
    steps.put_link(page, program);
    page.put("\n\n");
}

/// Puts the step that compiles a module.
fn put_step(page: &mut Text, steps: &Steps<'_>, node: &Node<'_>, body: &Part<'_>) {
    let module = node.name.as_str();
    page.put("build ");
    steps.put_made(page, Reader::Ninja, module, ".link");
    page.put(" | ");
    steps.put_made(page, Reader::Ninja, module, ".wasm");
    page.put(": compile ");
    put_name(page, Reader::Ninja, body.file);
    if let Some(definition) = &node.definition {
        page.put(" | ");
        put_name(page, Reader::Ninja, definition.file);
    }
    page.put("\n  depfile = ");
    steps.put_made(page, Reader::Ninja, module, ".d");
    page.put("\n  words =");
    steps.put_own(page, node, body);
    page.put("\n");
}

/// Puts the steps that compile the modules.
fn put_steps(page: &mut Text, steps: &Steps<'_>, nodes: &[Node<'_>]) {
    for node in nodes {
        if let Some(body) = &node.body {
            put_step(page, steps, node, body);
        }
    }
}

/// The steps of a build of this program as a file of ninja: a step for each body, and one that links them. The variable `m2` names
/// the program that is called. The only error is that memory ran out.
pub fn ninja_file(
    alloc: Global,
    steps: &Steps<'_>,
    program: &str,
    nodes: &[Node<'_>],
) -> Result<String, AllocError> {
    let mut page = Text::new(alloc);
    page.put(HEAD);
    put_rules(&mut page, steps, program);
    put_steps(&mut page, steps, nodes);
    page.put("\nbuild ");
    steps.put_made(&mut page, Reader::Ninja, "link", ".wasm");
    page.put(": link");
    for node in nodes {
        if node.body.is_some() {
            page.put(" $\n    ");
            steps.put_made(&mut page, Reader::Ninja, node.name.as_str(), ".link");
        }
    }
    page.put("\n\ndefault ");
    steps.put_made(&mut page, Reader::Ninja, "link", ".wasm");
    page.put("\n");
    page.finish()
}
