//! What an editor says that it can do.

use serde_json::Value;

/// Where an editor says whether it takes texts with places to fill, in which encodings it counts, and what it does with files.
const SNIPPETS: &str = "/capabilities/textDocument/completion/completionItem/snippetSupport";

const FILES: &str = "/capabilities/workspace/workspaceEdit/resourceOperations";

/// The word for files that are made.
const CREATE: &str = "create";

/// Whether the editor takes texts with places to fill.
pub fn has_snippets(params: &Value) -> bool {
    params
        .pointer(SNIPPETS)
        .and_then(Value::as_bool)
        .unwrap_or(false)
}

/// Whether the editor makes files that an edit asks for.
pub fn makes_files(params: &Value) -> bool {
    params
        .pointer(FILES)
        .and_then(Value::as_array)
        .is_some_and(|all| all.iter().any(|it| it.as_str() == Some(CREATE)))
}
