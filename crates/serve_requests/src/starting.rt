//! What a server and an editor agree on.

use serde_json::Value;
use serve_offers::{TOKEN_MODIFIERS, TOKEN_TYPES};
use serve_texts::Encoding;
use write_json::Json;

/// The names of encodings.
const UTF_8: &str = "utf-8";

const UTF_16: &str = "utf-16";

/// The name of the server, and its version.
const NAME: &str = "m2";

/// That changes come as edits.
const INCREMENTAL: u64 = 2;

/// The encoding of places: bytes, if the editor can count in them, and else the units that each editor knows.
pub fn encoding_of(params: &Value) -> Encoding {
    let known = params.pointer("/capabilities/general/positionEncodings");
    let is_known = known
        .and_then(Value::as_array)
        .is_some_and(|all| all.iter().any(|it| it.as_str() == Some(UTF_8)));
    if is_known {
        Encoding::Utf8
    } else {
        Encoding::Utf16
    }
}

/// The name of an encoding.
fn name_of(encoding: Encoding) -> &'static str {
    match encoding {
        Encoding::Utf8 => UTF_8,
        Encoding::Utf16 => UTF_16,
    }
}

/// Begins an object that is a member.
fn begin_member(name: &str, json: &mut Json) {
    json.name(name);
    json.begin_object();
}

/// Writes a member that is a list of texts.
fn put_texts(name: &str, texts: &[&str], json: &mut Json) {
    json.name(name);
    json.begin_list();
    for text in texts {
        json.words(*text);
    }
    json.end_list();
}

/// Writes the member that says how the tokens of a text are told.
fn put_semantic(json: &mut Json) {
    begin_member("semanticTokensProvider", json);
    json.flag_member("full", true);
    begin_member("legend", json);
    put_texts("tokenModifiers", &TOKEN_MODIFIERS, json);
    put_texts("tokenTypes", &TOKEN_TYPES, json);
    json.end_object();
    json.end_object();
}

/// What the server can do with names, as far as there is nothing more to say of it.
const PLAIN_CAPABILITIES: [&str; 10] = [
    "declarationProvider",
    "definitionProvider",
    "documentHighlightProvider",
    "documentSymbolProvider",
    "foldingRangeProvider",
    "hoverProvider",
    "implementationProvider",
    "referencesProvider",
    "typeDefinitionProvider",
    "workspaceSymbolProvider",
];

/// Writes a member that is an object with a list of texts.
fn put_provider(name: &str, member: &str, texts: &[&str], json: &mut Json) {
    begin_member(name, json);
    put_texts(member, texts, json);
    json.end_object();
}

/// The member that says behind which letters an editor asks.
const TRIGGERS: &str = "triggerCharacters";

/// Writes what the server can do with names.
fn put_name_capabilities(json: &mut Json) {
    for name in PLAIN_CAPABILITIES {
        json.flag_member(name, true);
    }
    put_provider("completionProvider", TRIGGERS, &["."], json);
    put_provider("signatureHelpProvider", TRIGGERS, &["(", ","], json);
    begin_member("renameProvider", json);
    json.flag_member("prepareProvider", true);
    json.end_object();
    put_semantic(json);
}

/// Writes what the server can do with texts.
fn put_text_capabilities(encoding: Encoding, json: &mut Json) {
    put_provider("codeActionProvider", "codeActionKinds", &["quickfix"], json);
    json.flag_member("documentFormattingProvider", true);
    json.words_member("positionEncoding", name_of(encoding));
    begin_member("textDocumentSync", json);
    json.number_member("change", INCREMENTAL);
    json.flag_member("openClose", true);
    json.flag_member("save", true);
    json.end_object();
}

/// Writes what the server can do, and what it is.
pub fn put_capabilities(encoding: Encoding, json: &mut Json) {
    json.begin_object();
    begin_member("capabilities", json);
    put_name_capabilities(json);
    put_text_capabilities(encoding, json);
    json.end_object();
    begin_member("serverInfo", json);
    json.words_member("name", NAME);
    json.end_object();
    json.end_object();
}
