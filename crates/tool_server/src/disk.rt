//! The files of the disk, for the server.

use serve_requests::Folder;
use std::alloc::{AllocError, Global};
use std::rt::{Env, Files};
use std::{env, fs};
use system_streams::{is_stream, read_text};

/// The name of the folder in which the program runs.
const HERE: &str = ".";

/// The files of the disk.
#[derive(Clone, Copy, Drop)]
pub struct Disk<'a, R> {
    pub rt: &'a R,
}

impl<R: Files + AllocGlobal + Clone + Drop> Folder for Disk<'_, R> {
    fn read(&self, _: Global, path: &str) -> Result<Option<Vec<u8>>, AllocError> {
        if is_stream(self.rt, path) {
            return Ok(None);
        }
        Ok(read_text(self.rt, path).ok())
    }

    fn list(&self, alloc: Global, folder: &str) -> Result<Vec<String>, AllocError> {
        let mut names = Vec::new(alloc);
        let folder = if folder.is_empty() { HERE } else { folder };
        let Ok(entries) = fs::read_dir(self.rt, folder) else {
            return Ok(names);
        };
        for entry in entries {
            if let Ok(entry) = entry {
                names.push(String::from_str(alloc, entry.file_name())?)?;
            }
        }
        Ok(names)
    }
}

/// The path of a folder from the root. What is not known of the folder in which the program runs is left out.
fn from_root<R: Env + AllocGlobal>(rt: &R, folder: &str) -> Result<String, AllocError> {
    if folder.starts_with('/') {
        return String::from_str(rt.alloc(), folder);
    }
    match env::current_dir(rt) {
        Ok(here) => format!(in rt.alloc(); "{}/{folder}", here.as_str()),
        Err(_) => String::from_str(rt.alloc(), folder),
    }
}

/// The paths of folders from the root.
pub fn all_from_root<R: Env + AllocGlobal>(
    rt: &R,
    folders: &[String],
) -> Result<Vec<String>, AllocError> {
    let mut all = Vec::new(rt.alloc());
    for folder in folders {
        all.push(from_root(rt, folder.as_str())?)?;
    }
    Ok(all)
}
