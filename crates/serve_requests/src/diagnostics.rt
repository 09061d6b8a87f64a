//! What is refused, as editors show it.

use crate::server::Server;
use serve_messages::{Method, notice_body};
use serve_offers::put_range;
use serve_sessions::{Folder, Severity, Shown, all_shown, read_text};
use serve_texts::{Text, uri_of};
use std::alloc::{AllocError, Global};
use std::thread::Threads;
use write_json::Json;

/// The number that the protocol has for how bad it is.
fn severity_number(severity: Severity) -> u64 {
    match severity {
        Severity::Error => 1,
        Severity::Information => 3,
    }
}

/// Who says so.
const SOURCE: &str = "m2";

/// Whether a path is among others.
fn is_among(paths: &[String], path: &str) -> bool {
    paths.iter().any(|it| it.as_str() == path)
}

/// Adds a path, if it is not there yet.
fn add_path(alloc: Global, path: &str, paths: &mut Vec<String>) -> Result<(), AllocError> {
    if !is_among(paths, path) {
        paths.push(String::from_str(alloc, path)?)?;
    }
    Ok(())
}

/// The files of which something is refused, each once.
fn paths_of(alloc: Global, shown: &[Shown]) -> Result<Vec<String>, AllocError> {
    let mut paths = Vec::new(alloc);
    for one in shown {
        add_path(alloc, one.path.as_str(), &mut paths)?;
    }
    Ok(paths)
}

impl Server {
    /// What is refused now: a message for each file of which something is, and for each of which something was before.
    pub(crate) fn diagnose<R: AllocGlobal + Threads + Sync, F: Folder>(
        &mut self,
        rt: &R,
        folder: &F,
    ) -> Result<Vec<Vec<u8>>, AllocError> {
        let alloc = rt.alloc();
        let shown = all_shown(rt, &self.texts, folder, &self.setting)?;
        let paths = paths_of(alloc, &shown)?;
        let bodies = self.notices(alloc, folder, &paths, &shown)?;
        self.shown = paths;
        Ok(bodies)
    }

    /// The messages about files with these paths, and about the others of which something is said.
    fn notices<F: Folder>(
        &self,
        alloc: Global,
        folder: &F,
        paths: &[String],
        shown: &[Shown],
    ) -> Result<Vec<Vec<u8>>, AllocError> {
        let told = self.told_paths(alloc, paths)?;
        let mut bodies = Vec::new(alloc);
        for path in &told {
            bodies.push(self.notice_of(alloc, folder, path.as_str(), shown)?)?;
        }
        Ok(bodies)
    }

    /// The files of which something is said: the open ones, and those of which something is refused or was before.
    fn told_paths(&self, alloc: Global, paths: &[String]) -> Result<Vec<String>, AllocError> {
        let mut told = self.texts.paths(alloc)?;
        for path in paths.iter().chain(self.shown.iter()) {
            add_path(alloc, path.as_str(), &mut told)?;
        }
        Ok(told)
    }

    /// The text of a file as it stands: an empty one, if it is not there.
    pub(crate) fn text_of<F: Folder>(
        &self,
        alloc: Global,
        folder: &F,
        path: &str,
    ) -> Result<Text, AllocError> {
        let bytes = match read_text(alloc, &self.texts, folder, path)? {
            Some(bytes) => bytes,
            None => Vec::new(alloc),
        };
        Text::of(alloc, bytes)
    }

    /// The name of a file for the editor.
    pub(crate) fn uri_of_path(&self, alloc: Global, path: &str) -> Result<String, AllocError> {
        match self.texts.get(path) {
            Some(open) => String::from_str(alloc, open.uri.as_str()),
            None => uri_of(alloc, path),
        }
    }

    /// The message with all that is refused of a file.
    fn notice_of<F: Folder>(
        &self,
        alloc: Global,
        folder: &F,
        path: &str,
        shown: &[Shown],
    ) -> Result<Vec<u8>, AllocError> {
        let text = self.text_of(alloc, folder, path)?;
        let mut json = Json::new(alloc);
        self.put_notice(alloc, path, &text, shown, &mut json);
        notice_body(alloc, Method::PublishDiagnostics.name(), &json.finish()?)
    }

    /// Writes the object with all that is refused of a file.
    fn put_notice(&self, alloc: Global, path: &str, text: &Text, shown: &[Shown], json: &mut Json) {
        json.begin_object();
        json.name("diagnostics");
        json.begin_list();
        for one in shown {
            if one.path.as_str() == path {
                self.put_diagnostic(alloc, text, one, json);
            }
        }
        json.end_list();
        json.name("uri");
        json.words_made(self.uri_of_path(alloc, path));
        self.put_version(path, json);
        json.end_object();
    }

    /// Writes the member that says the version of an open text.
    fn put_version(&self, path: &str, json: &mut Json) {
        if let Some(open) = self.texts.get(path) {
            json.name("version");
            json.signed(open.version);
        }
    }

    /// Writes the member that leads to the explanation of a rule, if the editor shows links.
    fn put_link(&self, alloc: Global, number: u32, json: &mut Json) {
        if let Some(explanations) = &self.explanations {
            json.name("codeDescription");
            json.begin_object();
            json.name("href");
            json.words_made(explanations.address_of(alloc, number));
            json.end_object();
        }
    }

    /// Writes the object of something that is refused.
    fn put_diagnostic(&self, alloc: Global, text: &Text, one: &Shown, json: &mut Json) {
        let begin = text.offset_of_pos(one.pos);
        let end = begin.saturating_add(one.length);
        json.begin_object();
        json.number_member("code", u64::from(one.number));
        self.put_link(alloc, one.number, json);
        json.words_member("message", one.words.as_str());
        json.name("range");
        put_range(text, self.encoding, begin, end, json);
        json.number_member("severity", severity_number(one.severity));
        json.words_member("source", SOURCE);
        json.end_object();
    }
}
