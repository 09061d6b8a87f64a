//! The paths of the files of modules.

use crate::folders::Part;
use m2_tree::Name;
use std::alloc::{AllocError, Global};

/// The folder of a program, and behind it the folders of libraries.
#[derive(Drop)]
pub struct Folders {
    /// What stands in front of the names of the files of each folder.
    pub fronts: Vec<String>,
}

/// The folder of a file, with the slash behind it.
pub fn folder_of(path: &str) -> &str {
    match path.rfind('/') {
        None => "",
        Some(at) => path.get(..=at).unwrap_or(""),
    }
}

/// The ending of the name of a module's file, with its point.
pub fn file_ending(part: Part) -> &'static str {
    match part {
        Part::Definition => ".def",
        Part::Implementation => ".mod",
    }
}

/// What stands in front of the names of a folder's files.
fn front_of(alloc: Global, folder: &str) -> Result<String, AllocError> {
    let mut front = String::from_str(alloc, folder)?;
    if !folder.ends_with('/') {
        front.push('/')?;
    }
    Ok(front)
}

impl Folders {
    /// The folder of the program of this file, and behind it these folders. The only error is that memory ran out.
    pub fn of(alloc: Global, program: &str, libraries: &[String]) -> Result<Folders, AllocError> {
        let mut fronts = Vec::new(alloc);
        fronts.push(String::from_str(alloc, folder_of(program))?)?;
        for library in libraries {
            fronts.push(front_of(alloc, library.as_str())?)?;
        }
        Ok(Folders { fronts })
    }

    /// The path of a module's file in the folder of this number, from 0. The only error is that memory ran out.
    pub fn path_of(
        &self,
        alloc: Global,
        number: usize,
        module: &Name,
        part: Part,
    ) -> Result<String, AllocError> {
        let front = self.fronts.get(number).map_or("", |it| it.as_str());
        let mut path = String::from_str(alloc, front)?;
        path.push_str(String::from_utf8_lossy(alloc, module.as_bytes())?.as_str())?;
        path.push_str(file_ending(part))?;
        Ok(path)
    }
}
