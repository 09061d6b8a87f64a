//! Edits that mend what is refused, and the layout of a text.

use crate::server::{Reply, Server};
use format_text::{FormatFault, format};
use m2_rule::Rule;
use m2_tree::Refusal;
use serde_json::Value;
use serve_offers::{Edit, implementation_text, put_edit, put_new_file};
use serve_sessions::{Folder, length_at, programs_with, range_of, refusals_of, spare_of};
use serve_texts::{Position, Shift, Text, uri_of};
use std::alloc::{AllocError, Global};
use std::slice;
use std::thread::Threads;
use try_mends::{BuildFault, Found, SourceFile, find_mend};
use write_json::Json;

/// The kind of an action that mends.
const QUICK_FIX: &str = "quickfix";

/// How the files of definitions and of implementations end.
const DEFINITION: &str = ".def";

const IMPLEMENTATION: &str = ".mod";

/// Whether the editor wants edits that mend.
fn is_wanted(params: &Value) -> bool {
    match params.pointer("/context/only").and_then(Value::as_array) {
        Some(kinds) => kinds.iter().any(|it| it.as_str() == Some(QUICK_FIX)),
        None => true,
    }
}

/// Bytes of a text.
#[derive(Clone, Copy)]
struct Span {
    begin: usize,
    end: usize,
}

impl Span {
    /// Whether bytes touch others.
    fn meets(self, other: Span) -> bool {
        self.begin <= other.end && other.begin <= self.end
    }
}

/// The refused token.
fn span_of(alloc: Global, text: &Text, refusal: &Refusal) -> Result<Span, AllocError> {
    let begin = text.offset_of_pos(refusal.pos);
    let length = length_at(alloc, text.bytes(), refusal.pos)?;
    Ok(Span {
        begin,
        end: begin.saturating_add(length),
    })
}

/// Bytes of a file at which mends are wanted.
#[derive(Clone, Copy)]
struct Target<'a> {
    path: &'a str,
    text: &'a Text,
    span: Span,
}

/// The first of these refusals that is one of the wanted bytes.
fn refused_at<'a>(
    alloc: Global,
    refusals: &'a [Refusal],
    target: Target<'_>,
) -> Result<Option<&'a Refusal>, AllocError> {
    for refusal in refusals {
        if refusal.file.as_str() == target.path
            && span_of(alloc, target.text, refusal)?.meets(target.span)
        {
            return Ok(Some(refusal));
        }
    }
    Ok(None)
}

/// A copy of a file.
fn copy_of(alloc: Global, file: &SourceFile) -> Result<SourceFile, AllocError> {
    let name = String::from_str(alloc, file.name.as_str())?;
    let bytes = Vec::from_slice(alloc, &file.bytes)?;
    Ok(SourceFile { name, bytes })
}

/// Copies of files, and of one more.
fn copies_with(
    alloc: Global,
    files: &[SourceFile],
    more: &SourceFile,
) -> Result<Vec<SourceFile>, AllocError> {
    let mut all = Vec::new(alloc);
    for file in files.iter().chain(slice::from_ref(more).iter()) {
        all.push(copy_of(alloc, file)?)?;
    }
    Ok(all)
}

/// The file of the implementation of a definition, which has each procedure with an empty body. None for a file that is no definition.
fn partner_of(alloc: Global, path: &str, text: &Text) -> Result<Option<SourceFile>, AllocError> {
    let Some(front) = path.strip_suffix(DEFINITION) else {
        return Ok(None);
    };
    let Some(bytes) = implementation_text(alloc, text)? else {
        return Ok(None);
    };
    let name = format!(in alloc; "{front}{IMPLEMENTATION}")?;
    Ok(Some(SourceFile { name, bytes }))
}

/// Begins an action, behind which the change that it makes is written.
fn begin_action(json: &mut Json) {
    json.begin_object();
    json.name("edit");
}

/// Ends an action behind its change.
fn end_action(title: &str, json: &mut Json) {
    json.flag_member("isPreferred", true);
    json.words_member("kind", QUICK_FIX);
    json.words_member("title", title);
    json.end_object();
}

/// Writes the action that makes a file.
fn put_file_action(alloc: Global, file: &SourceFile, json: &mut Json) -> Result<(), AllocError> {
    let name = file.name.as_str();
    let uri = uri_of(alloc, name)?;
    let title = format!(in alloc; "Write {name} with all procedures")?;
    begin_action(json);
    put_new_file(uri.as_str(), &file.bytes, json);
    end_action(title.as_str(), json);
    Ok(())
}

impl Server {
    /// Writes an edit of the file that has this name for the editor, as a change of it.
    fn put_change(&self, uri: &str, text: &Text, edit: Edit<'_>, json: &mut Json) {
        json.begin_object();
        json.name("changes");
        json.begin_object();
        json.name(uri);
        json.begin_list();
        put_edit(text, self.encoding, edit, json);
        json.end_list();
        json.end_object();
        json.end_object();
    }

    /// Writes the action that makes a mend of a file.
    fn put_mend_action(
        &self,
        alloc: Global,
        target: Target<'_>,
        found: &Found,
        json: &mut Json,
    ) -> Result<(), AllocError> {
        let uri = self.uri_of_path(alloc, target.path)?;
        let edit = Edit {
            begin: found.mend.begin,
            end: found.mend.end,
            new: &found.mend.text,
        };
        begin_action(json);
        self.put_change(uri.as_str(), target.text, edit, json);
        end_action(found.mend.words.as_str(), json);
        Ok(())
    }

    /// Whether something is refused of a file or of another one, if the other is added to the program.
    fn is_either_refused<R: AllocGlobal + Threads + Sync>(
        &self,
        rt: &R,
        files: &[SourceFile],
        path: &str,
        other: &SourceFile,
    ) -> Result<bool, AllocError> {
        let tried = copies_with(rt.alloc(), files, other)?;
        let refusals = refusals_of(rt, &self.setting, &tried)?;
        let name = other.name.as_str();
        let is_of_both = |it: &Refusal| it.file.as_str() == path || it.file.as_str() == name;
        Ok(refusals.iter().any(is_of_both))
    }

    /// Writes the action that writes the implementation of a definition, if nothing is refused of both then. Whether it was written.
    fn put_partner<R: AllocGlobal + Threads + Sync>(
        &self,
        rt: &R,
        files: &[SourceFile],
        target: Target<'_>,
        json: &mut Json,
    ) -> Result<bool, AllocError> {
        let Some(partner) = partner_of(rt.alloc(), target.path, target.text)? else {
            return Ok(false);
        };
        if self.is_either_refused(rt, files, target.path, &partner)? {
            return Ok(false);
        }
        put_file_action(rt.alloc(), &partner, json)?;
        Ok(true)
    }

    /// The mend of what is refused of a file, if one is known.
    fn mend_for<R: AllocGlobal + Threads + Sync, F: Folder>(
        &self,
        rt: &R,
        folder: &F,
        files: &[SourceFile],
        path: &str,
        refusal: &Refusal,
    ) -> Result<Option<Found>, AllocError> {
        let spare = spare_of(rt.alloc(), &self.texts, folder, &self.setting, path, files)?;
        match find_mend(rt, files, &spare, refusal, self.setting.pages) {
            Ok(found) => Ok(found),
            Err(fault) => match fault {
                BuildFault::NoMemory => Err(AllocError),
                BuildFault::Workers | BuildFault::Pages => Ok(None),
            },
        }
    }

    /// Writes the action that mends what is refused. Whether there is one.
    fn put_mend<R: AllocGlobal + Threads + Sync, F: Folder>(
        &self,
        rt: &R,
        folder: &F,
        files: &[SourceFile],
        target: Target<'_>,
        refusal: &Refusal,
        json: &mut Json,
    ) -> Result<bool, AllocError> {
        if refusal.number == Rule::LonelyModule.number() && self.makes_files {
            return self.put_partner(rt, files, target, json);
        }
        let Some(found) = self.mend_for(rt, folder, files, target.path, refusal)? else {
            return Ok(false);
        };
        self.put_mend_action(rt.alloc(), target, &found, json)?;
        Ok(true)
    }

    /// Writes the action that mends what a program is refused for at bytes of a file. Whether there is one.
    fn put_action<R: AllocGlobal + Threads + Sync, F: Folder>(
        &self,
        rt: &R,
        folder: &F,
        files: &[SourceFile],
        target: Target<'_>,
        json: &mut Json,
    ) -> Result<bool, AllocError> {
        let refusals = refusals_of(rt, &self.setting, files)?;
        match refused_at(rt.alloc(), &refusals, target)? {
            Some(refusal) => self.put_mend(rt, folder, files, target, refusal, json),
            None => Ok(false),
        }
    }

    /// Writes the action that mends what is refused at bytes of a file: that of the first program for which there is one.
    fn put_first_action<R: AllocGlobal + Threads + Sync, F: Folder>(
        &self,
        rt: &R,
        folder: &F,
        target: Target<'_>,
        json: &mut Json,
    ) -> Result<(), AllocError> {
        let (texts, setting) = (&self.texts, &self.setting);
        for program in &programs_with(rt.alloc(), texts, folder, setting, target.path)? {
            if self.put_action(rt, folder, &program.files, target, json)? {
                return Ok(());
            }
        }
        Ok(())
    }

    /// Writes the actions that mend what is refused between two places of a file.
    fn put_actions<R: AllocGlobal + Threads + Sync, F: Folder>(
        &self,
        rt: &R,
        folder: &F,
        path: &str,
        range: (Position, Position),
        json: &mut Json,
    ) -> Result<(), AllocError> {
        let text = self.text_of(rt.alloc(), folder, path)?;
        let span = Span {
            begin: text.offset_of(range.0, self.encoding),
            end: text.offset_of(range.1, self.encoding),
        };
        let target = Target {
            path,
            text: &text,
            span,
        };
        self.put_first_action(rt, folder, target, json)
    }

    /// Writes the list of the actions that mend what is refused at bytes of a file.
    pub(crate) fn code_actions<R: AllocGlobal + Threads + Sync, F: Folder>(
        &self,
        rt: &R,
        folder: &F,
        path: &str,
        params: &Value,
        json: &mut Json,
    ) -> Result<Reply, AllocError> {
        let Some(range) = params.get("range").and_then(range_of) else {
            return Ok(Reply::no_params());
        };
        json.begin_list();
        if is_wanted(params) {
            self.put_actions(rt, folder, path, range, json)?;
        }
        json.end_list();
        Ok(Reply::Written)
    }

    /// Writes the edit that gives a text its layout: none if it has it, null if it breaks a rule of tokens or of the grammar.
    pub(crate) fn formatting<F: Folder>(
        &self,
        alloc: Global,
        folder: &F,
        path: &str,
        json: &mut Json,
    ) -> Result<Reply, AllocError> {
        let text = self.text_of(alloc, folder, path)?;
        match format(alloc, text.bytes()) {
            Ok(new) => self.put_layout(&text, &new, json),
            Err(FormatFault::NoMemory) => return Err(AllocError),
            Err(FormatFault::Refused(_pos, _number)) => json.null(),
        }
        Ok(Reply::Written)
    }

    /// Writes the edit that makes one text of another: none if they are the same.
    fn put_layout(&self, text: &Text, new: &[u8], json: &mut Json) {
        json.begin_list();
        if text.bytes() != new {
            let shift = Shift::between(text.bytes(), new);
            let edit = Edit {
                begin: shift.front,
                end: shift.old_end,
                new: new.get(shift.front..shift.new_end).unwrap_or(b""),
            };
            put_edit(text, self.encoding, edit, json);
        }
        json.end_list();
    }
}
