//! The open texts.

use crate::letters::Encoding;
use crate::text::{Position, Text};
use std::alloc::{AllocError, Global};
use std::collections::BTreeMap;

/// A text that an editor has open.
pub struct OpenText {
    /// The name under which the editor knows it.
    pub uri: String,
    /// The version that the editor gave it.
    pub version: i64,
    /// The text as it stands.
    pub text: Text,
    /// The last text that had a tree, if the one that stands has none.
    pub sound: Option<Text>,
}

// Written by hand, so that proofs above take a drop as one call.
impl Drop for OpenText {
    fn drop(self) {
        let OpenText {
            uri,
            version: _version,
            text,
            sound,
        } = self;
        drop(uri);
        drop(text);
        drop(sound);
    }
}

/// A change of a text: what stands between two places, or the whole text, becomes another text.
#[derive(Clone, Copy)]
pub struct Change<'a> {
    pub range: Option<(Position, Position)>,
    pub text: &'a str,
}

/// The open texts by their paths.
#[derive(Drop)]
pub struct Texts {
    all: BTreeMap<String, OpenText>,
}

impl Texts {
    /// No text is open.
    pub fn new(alloc: Global) -> Texts {
        Texts {
            all: BTreeMap::new(alloc),
        }
    }

    /// Opens a text, or gives one that is open other bytes. The only error is want of memory.
    pub fn open(
        &mut self,
        alloc: Global,
        path: &str,
        uri: &str,
        version: i64,
        text: &str,
    ) -> Result<(), AllocError> {
        let uri = String::from_str(alloc, uri)?;
        let text = Text::of(alloc, Vec::from_slice(alloc, text.as_bytes())?)?;
        let opened = OpenText {
            uri,
            version,
            text,
            sound: None,
        };
        drop(self.all.insert(String::from_str(alloc, path)?, opened)?);
        Ok(())
    }

    /// Closes a text. Whether it was open.
    pub fn close(&mut self, path: &str) -> bool {
        self.all.remove(path).is_some()
    }

    /// The open text of this path.
    pub fn get(&self, path: &str) -> Option<&OpenText> {
        self.all.get(path)
    }

    /// The open text of this path, to be changed.
    pub fn get_mut(&mut self, path: &str) -> Option<&mut OpenText> {
        self.all.get_mut(path)
    }

    /// The paths of the open texts, in order.
    pub fn paths(&self, alloc: Global) -> Result<Vec<String>, AllocError> {
        let mut paths = Vec::new(alloc);
        for path in self.all.keys() {
            paths.push(String::from_str(alloc, path.as_str())?)?;
        }
        Ok(paths)
    }
}

impl OpenText {
    /// Makes a change. The only error is want of memory: then the text is as it was.
    pub fn change(
        &mut self,
        alloc: Global,
        change: Change<'_>,
        encoding: Encoding,
    ) -> Result<(), AllocError> {
        let (from, to) = match change.range {
            None => (0, self.text.bytes().len()),
            Some((begin, end)) => (
                self.text.offset_of(begin, encoding),
                self.text.offset_of(end, encoding),
            ),
        };
        self.text = self.text.edited(alloc, from, to, change.text.as_bytes())?;
        Ok(())
    }

    /// The text that has a tree, as far as one is known.
    pub fn sound_text(&self) -> &Text {
        match &self.sound {
            Some(sound) => sound,
            None => &self.text,
        }
    }
}
