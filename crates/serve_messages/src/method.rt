//! What messages ask for.

/// What a message asks for or tells.
#[derive(Clone, Copy, Debug, PartialEq, Eq)]
pub enum Method {
    Initialize,
    Initialized,
    Shutdown,
    Exit,
    Cancel,
    SetTrace,
    DidOpen,
    DidChange,
    DidClose,
    DidSave,
    WillSave,
    DidChangeConfiguration,
    DidChangeWatchedFiles,
    Hover,
    Definition,
    Declaration,
    Implementation,
    TypeDefinition,
    References,
    DocumentHighlight,
    PrepareRename,
    Rename,
    DocumentSymbol,
    WorkspaceSymbol,
    Completion,
    SignatureHelp,
    SemanticTokens,
    FoldingRange,
    CodeAction,
    Formatting,
    /// What a client tells the server: the diagnostics of a file.
    PublishDiagnostics,
    /// A name that is not known here, and begins with `$/`, so that a notification of it may be ignored.
    Optional,
    /// Any other name.
    Unknown,
}

/// The names of methods.
const NAMES: [(&str, Method); 31] = [
    ("initialize", Method::Initialize),
    ("initialized", Method::Initialized),
    ("shutdown", Method::Shutdown),
    ("exit", Method::Exit),
    ("$/cancelRequest", Method::Cancel),
    ("$/setTrace", Method::SetTrace),
    ("textDocument/didOpen", Method::DidOpen),
    ("textDocument/didChange", Method::DidChange),
    ("textDocument/didClose", Method::DidClose),
    ("textDocument/didSave", Method::DidSave),
    ("textDocument/willSave", Method::WillSave),
    (
        "workspace/didChangeConfiguration",
        Method::DidChangeConfiguration,
    ),
    (
        "workspace/didChangeWatchedFiles",
        Method::DidChangeWatchedFiles,
    ),
    ("textDocument/hover", Method::Hover),
    ("textDocument/definition", Method::Definition),
    ("textDocument/declaration", Method::Declaration),
    ("textDocument/implementation", Method::Implementation),
    ("textDocument/typeDefinition", Method::TypeDefinition),
    ("textDocument/references", Method::References),
    ("textDocument/documentHighlight", Method::DocumentHighlight),
    ("textDocument/prepareRename", Method::PrepareRename),
    ("textDocument/rename", Method::Rename),
    ("textDocument/documentSymbol", Method::DocumentSymbol),
    ("workspace/symbol", Method::WorkspaceSymbol),
    ("textDocument/completion", Method::Completion),
    ("textDocument/signatureHelp", Method::SignatureHelp),
    ("textDocument/semanticTokens/full", Method::SemanticTokens),
    ("textDocument/foldingRange", Method::FoldingRange),
    ("textDocument/codeAction", Method::CodeAction),
    ("textDocument/formatting", Method::Formatting),
    (
        "textDocument/publishDiagnostics",
        Method::PublishDiagnostics,
    ),
];

impl Method {
    /// The method of this name.
    pub fn of(name: &str) -> Method {
        match NAMES.iter().find(|row| row.0 == name) {
            Some(row) => row.1,
            None if name.starts_with("$/") => Method::Optional,
            None => Method::Unknown,
        }
    }

    /// The name of a method. It is empty for one that is not known here.
    pub fn name(self) -> &'static str {
        NAMES
            .iter()
            .find(|row| row.1 == self)
            .map_or("", |row| row.0)
    }
}
