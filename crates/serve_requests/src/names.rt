//! Requests about texts and their names.

use crate::server::{Held, Reach, Reply, Server};
use serde_json::Value;
use serve_messages::{Call, ErrorCode, Method};
use serve_offers::{
    Ask, Choice, Extent, completion, definition, document_symbols, folding_ranges, highlights,
    hover, implementation, prepare_rename, references, semantic_tokens, signature_help,
    type_definition, workspace_symbols,
};
use serve_renames::{Renaming, is_name};
use serve_sessions::{
    Folder, Program, Spot, View, folder_of, path_in, position_of, programs_around, programs_with,
    roots_of, spare_of, text_at, view_for, view_of,
};
use serve_texts::Position;
use std::alloc::{AllocError, Global};
use std::thread::Threads;
use write_json::Json;

/// The ending of the name of a definition's file.
const DEFINITION_ENDING: &str = ".def";

/// Which programs a request looks at. What a text imports that has no tree is among the files that it may import.
fn reach_of(method: Method, has_tree: bool) -> Reach {
    match method {
        Method::References | Method::Rename => Reach::Folder,
        Method::Completion => Reach::Open,
        _ if has_tree => Reach::Program,
        _ => Reach::Open,
    }
}

/// Whether a request is answered by what the name at a place stands for, whatever other procedures have inside.
fn is_of_name(method: Method) -> bool {
    matches!(
        method,
        Method::Hover
            | Method::Definition
            | Method::Declaration
            | Method::Implementation
            | Method::TypeDefinition
    )
}

/// Whether a request is about a place, and is answered by the names of programs alone.
fn is_of_place(method: Method) -> bool {
    is_of_name(method)
        || matches!(
            method,
            Method::References
                | Method::DocumentHighlight
                | Method::PrepareRename
                | Method::SignatureHelp
                | Method::Completion
        )
}

/// Whether a request is about a whole text, and is answered by the names of programs alone.
fn is_of_text(method: Method) -> bool {
    matches!(
        method,
        Method::DocumentSymbol | Method::SemanticTokens | Method::FoldingRange
    )
}

/// Whether a request is about a file.
fn is_of_file(method: Method) -> bool {
    matches!(
        method,
        Method::Rename | Method::CodeAction | Method::Formatting
    ) || is_of_place(method)
        || is_of_text(method)
}

/// Writes what is answered about a whole text.
fn put_text_answer(ask: &Ask<'_>, method: Method, json: &mut Json) -> Result<(), AllocError> {
    match method {
        Method::DocumentSymbol => document_symbols(ask, json),
        Method::SemanticTokens => semantic_tokens(ask, json),
        _ => folding_ranges(ask, json),
    }
}

/// Writes where the name at a place leads, and null for any other request.
fn put_place(ask: &Ask<'_>, method: Method, json: &mut Json) {
    match method {
        Method::Definition | Method::Declaration => definition(ask, json),
        Method::Implementation => implementation(ask, json),
        Method::TypeDefinition => type_definition(ask, json),
        Method::PrepareRename => prepare_rename(ask, json),
        _ => json.null(),
    }
}

/// Writes what is answered about a place or a text.
fn put_answer(
    ask: &Ask<'_>,
    method: Method,
    params: &Value,
    json: &mut Json,
) -> Result<(), AllocError> {
    match method {
        Method::Hover => hover(ask, json),
        Method::References => references(ask, references_in(params), json),
        Method::DocumentHighlight => highlights(ask, json),
        Method::SignatureHelp => signature_help(ask, json),
        _ if is_of_text(method) => put_text_answer(ask, method, json),
        _ => {
            put_place(ask, method, json);
            Ok(())
        }
    }
}

/// Which places of a name are wanted.
fn references_in(params: &Value) -> Extent {
    let is_all = params
        .pointer("/context/includeDeclaration")
        .and_then(Value::as_bool)
        .unwrap_or(false);
    if is_all { Extent::All } else { Extent::Uses }
}

/// Adds the names of the modules whose definitions stand in a folder.
fn add_modules(
    alloc: Global,
    files: &[String],
    modules: &mut Vec<String>,
) -> Result<(), AllocError> {
    for file in files {
        if let Some(name) = file.strip_suffix(DEFINITION_ENDING) {
            modules.push(String::from_str(alloc, name)?)?;
        }
    }
    Ok(())
}

/// Adds the names of the modules whose definitions stand in the folder of this path.
fn add_listed<F: Folder>(
    alloc: Global,
    folder: &F,
    path: &str,
    modules: &mut Vec<String>,
) -> Result<(), AllocError> {
    add_modules(alloc, &folder.list(alloc, path)?, modules)
}

/// Adds the names of the modules of a library.
fn add_library<F: Folder>(
    alloc: Global,
    folder: &F,
    library: &str,
    modules: &mut Vec<String>,
) -> Result<(), AllocError> {
    let mut front = String::from_str(alloc, library)?;
    if !front.ends_with('/') {
        front.push('/')?;
    }
    add_listed(alloc, folder, front.as_str(), modules)
}

impl Server {
    /// Writes what is answered to a request, but for those of a session.
    pub(crate) fn request<R: AllocGlobal + Threads + Sync, F: Folder>(
        &mut self,
        rt: &R,
        folder: &F,
        call: &Call,
        json: &mut Json,
    ) -> Result<Reply, AllocError> {
        match call.method {
            Method::WorkspaceSymbol => {
                self.workspace_symbols(rt.alloc(), folder, &call.params, json)
            }
            method if is_of_file(method) => self.file_request(rt, folder, call, json),
            _ => Ok(Reply::Failed(
                ErrorCode::MethodNotFound,
                "the server does not know this request",
            )),
        }
    }

    /// Writes what is answered about a file.
    fn file_request<R: AllocGlobal + Threads + Sync, F: Folder>(
        &mut self,
        rt: &R,
        folder: &F,
        call: &Call,
        json: &mut Json,
    ) -> Result<Reply, AllocError> {
        let Some(path) = path_in(rt.alloc(), &call.params)? else {
            return Ok(Reply::no_params());
        };
        let path = path.as_str();
        match call.method {
            Method::Rename => self.rename(rt, folder, path, &call.params, json),
            Method::CodeAction => self.code_actions(rt, folder, path, &call.params, json),
            Method::Formatting => self.formatting(rt.alloc(), folder, path, json),
            _ => self.text_request(rt.alloc(), folder, path, call, json),
        }
    }

    /// The programs of a file.
    fn programs_of<F: Folder>(
        &self,
        alloc: Global,
        folder: &F,
        path: &str,
        reach: Reach,
    ) -> Result<Vec<Program>, AllocError> {
        let (texts, setting) = (&self.texts, &self.setting);
        match reach {
            Reach::Program | Reach::Open => programs_with(alloc, texts, folder, setting, path),
            Reach::Folder => programs_around(alloc, texts, folder, setting, path),
        }
    }

    /// Adds the files that the programs of a file may import besides their own, as a program of which nothing is built, if they are
    /// wanted.
    fn add_spare<F: Folder>(
        &self,
        alloc: Global,
        folder: &F,
        path: &str,
        reach: Reach,
        programs: &mut Vec<Program>,
    ) -> Result<(), AllocError> {
        if reach == Reach::Program {
            return Ok(());
        }
        if let Some(program) = programs.first() {
            let own = program.files.as_slice();
            let files = spare_of(alloc, &self.texts, folder, &self.setting, path, own)?;
            programs.push(Program {
                files,
                is_made: false,
            })?;
        }
        Ok(())
    }

    /// Whether the text of this path has a tree, as far as it is open.
    fn has_tree(&self, path: &str) -> bool {
        self.texts.get(path).is_none_or(|open| open.sound.is_none())
    }

    /// Whether the names of the programs of a file are known, as far as is asked for.
    fn is_held(&self, path: &str, reach: Reach, position: Option<Position>) -> bool {
        match &self.held {
            Some(held) => {
                let is_known = held.focus.is_none() || held.focus == position;
                is_known && held.path.as_str() == path && held.reach >= reach
            }
            None => false,
        }
    }

    /// What the names of these programs stand for. The tree of the text that changed last is let go.
    fn view_at(
        &mut self,
        alloc: Global,
        programs: &[Program],
        path: &str,
        focus: Option<Position>,
    ) -> Result<View, AllocError> {
        let encoding = self.encoding;
        let spot = focus.map(|position| Spot {
            path,
            position,
            encoding,
        });
        view_for(alloc, &self.texts, programs, self.fresh.take(), spot)
    }

    /// The programs of a file, and what their names stand for.
    fn look_at<F: Folder>(
        &mut self,
        alloc: Global,
        folder: &F,
        path: &str,
        reach: Reach,
        focus: Option<Position>,
    ) -> Result<Held, AllocError> {
        let mut programs = self.programs_of(alloc, folder, path, reach)?;
        let count = programs.len();
        self.add_spare(alloc, folder, path, reach, &mut programs)?;
        let view = self.view_at(alloc, &programs, path, focus)?;
        programs.truncate(count);
        Ok(Held {
            path: String::from_str(alloc, path)?,
            reach,
            focus,
            programs,
            view,
        })
    }

    /// Looks at the names of the programs of a file, unless they are known. If a place is asked about, the names inside of other
    /// procedures may be left out until `prepare`. What was known before is let go first.
    pub(crate) fn hold<F: Folder>(
        &mut self,
        alloc: Global,
        folder: &F,
        path: &str,
        reach: Reach,
        focus: Option<Position>,
    ) -> Result<(), AllocError> {
        if self.is_held(path, reach, focus) {
            return Ok(());
        }
        self.held = None;
        self.held = Some(self.look_at(alloc, folder, path, reach, focus)?);
        if focus.is_some() {
            self.latest = Some(String::from_str(alloc, path)?);
        }
        Ok(())
    }

    /// Whether something is shown as refused of a file of a program.
    fn is_refused(&self, program: &Program) -> bool {
        program.files.iter().any(|file| self
            .shown
            .iter()
            .any(|it| it.as_str() == file.name.as_str()))
    }

    /// Programs of which nothing is refused: none, if it is not known yet, or if something is refused of one of them.
    fn built_programs<'a>(&self, programs: &'a [Program]) -> &'a [Program] {
        if self.is_due || programs.iter().any(|it| self.is_refused(it)) {
            &[]
        } else {
            programs
        }
    }

    /// What is asked about: a byte of the file that is held. None if it is not there.
    fn ask_of(&self, alloc: Global, place: Option<Position>) -> Option<Ask<'_>> {
        let held = self.held.as_ref()?;
        let file = held.view.file_number(held.path.as_str())?;
        let now = &held.view.files.get(file)?.now;
        Some(Ask {
            alloc,
            view: &held.view,
            built: self.built_programs(&held.programs),
            texts: &self.texts,
            file,
            offset: place.map_or(0, |it| now.offset_of(it, self.encoding)),
            encoding: self.encoding,
        })
    }

    /// Adds the names of the modules that a file may import.
    fn add_known<F: Folder>(
        &self,
        alloc: Global,
        folder: &F,
        path: &str,
        modules: &mut Vec<String>,
    ) -> Result<(), AllocError> {
        add_listed(alloc, folder, folder_of(path), modules)?;
        for library in &self.setting.libraries {
            add_library(alloc, folder, library.as_str(), modules)?;
        }
        Ok(())
    }

    /// The names of the modules that a file may import, in order, each once.
    fn modules_for<F: Folder>(
        &self,
        alloc: Global,
        folder: &F,
        path: &str,
    ) -> Result<Vec<String>, AllocError> {
        let mut modules = Vec::new(alloc);
        self.add_known(alloc, folder, path, &mut modules)?;
        modules.sort()?;
        modules.dedup();
        Ok(modules)
    }

    /// Writes what is answered about a text, or about a place of one.
    fn text_request<F: Folder>(
        &mut self,
        alloc: Global,
        folder: &F,
        path: &str,
        call: &Call,
        json: &mut Json,
    ) -> Result<Reply, AllocError> {
        let position = call.params.get("position").and_then(position_of);
        if is_of_place(call.method) && position.is_none() {
            return Ok(Reply::no_params());
        }
        let place = if is_of_place(call.method) {
            position
        } else {
            None
        };
        let focus = if is_of_name(call.method) { place } else { None };
        let reach = reach_of(call.method, self.has_tree(path));
        self.hold(alloc, folder, path, reach, focus)?;
        self.put_held(alloc, folder, call, place, json)?;
        Ok(Reply::Written)
    }

    /// Writes what is answered about the file that is held, or about a place of it. Null if it is not there.
    fn put_held<F: Folder>(
        &self,
        alloc: Global,
        folder: &F,
        call: &Call,
        place: Option<Position>,
        json: &mut Json,
    ) -> Result<(), AllocError> {
        match self.ask_of(alloc, place) {
            Some(ask) if call.method == Method::Completion => {
                self.put_completion(folder, &ask, json)
            }
            Some(ask) => put_answer(&ask, call.method, &call.params, json),
            None => {
                json.null();
                Ok(())
            }
        }
    }

    /// Writes what may stand at a place of a file.
    fn put_completion<F: Folder>(
        &self,
        folder: &F,
        ask: &Ask<'_>,
        json: &mut Json,
    ) -> Result<(), AllocError> {
        let path = ask.here().map_or("", |it| it.path.as_str());
        let modules = self.modules_for(ask.alloc, folder, path)?;
        let choice = Choice {
            modules: &modules,
            has_snippets: self.has_snippets,
        };
        completion(ask, &choice, json)
    }

    /// Writes the declarations of all open programs whose names have some letters in them.
    fn workspace_symbols<F: Folder>(
        &self,
        alloc: Global,
        folder: &F,
        params: &Value,
        json: &mut Json,
    ) -> Result<Reply, AllocError> {
        let Some(query) = text_at(params, "/query") else {
            return Ok(Reply::no_params());
        };
        let programs = roots_of(alloc, &self.texts, folder, &self.setting)?;
        let view = view_of(alloc, &self.texts, &programs)?;
        let ask = Ask {
            alloc,
            view: &view,
            built: &[],
            texts: &self.texts,
            file: 0,
            offset: 0,
            encoding: self.encoding,
        };
        workspace_symbols(&ask, query.as_bytes(), json);
        Ok(Reply::Written)
    }

    /// Writes the edits that give the thing at a place another name, or answers why there are none.
    fn rename<R: AllocGlobal + Threads + Sync, F: Folder>(
        &mut self,
        rt: &R,
        folder: &F,
        path: &str,
        params: &Value,
        json: &mut Json,
    ) -> Result<Reply, AllocError> {
        let place = params.get("position").and_then(position_of);
        let (Some(place), Some(new)) = (place, text_at(params, "/newName")) else {
            return Ok(Reply::no_params());
        };
        if !is_name(rt.alloc(), new.as_bytes())? {
            return Ok(Reply::Failed(ErrorCode::RequestFailed, "this is no name of the language"));
        }
        self.hold(rt.alloc(), folder, path, Reach::Folder, None)?;
        self.put_renaming(rt, place, new.as_bytes(), json)
    }

    /// Writes the edits of the programs that are held, or answers why there are none. Null if the file is not there.
    fn put_renaming<R: AllocGlobal + Threads + Sync>(
        &self,
        rt: &R,
        place: Position,
        new: &[u8],
        json: &mut Json,
    ) -> Result<Reply, AllocError> {
        let ask = self.ask_of(rt.alloc(), Some(place));
        let (Some(held), Some(ask)) = (self.held.as_ref(), ask) else {
            return Ok(Reply::null(json));
        };
        let renaming = Renaming {
            ask,
            programs: &held.programs,
            setting: &self.setting,
            new,
        };
        match renaming.put(rt, json)? {
            Some(words) => Ok(Reply::Failed(ErrorCode::RequestFailed, words)),
            None => Ok(Reply::Written),
        }
    }
}
