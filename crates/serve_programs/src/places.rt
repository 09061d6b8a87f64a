//! Where the modules of a program are looked for.

use crate::folder::Folder;
use find_modules::{FindFault, Folders, ModuleFolders, Part};
use m2_tree::Name;
use serve_texts::Texts;
use std::alloc::{AllocError, Global};

/// The folder of a program, and behind it the folders of libraries. Open texts stand in the place of their files.
#[derive(Drop)]
pub struct Places<'a, F> {
    alloc: Global,
    texts: &'a Texts,
    folder: &'a F,
    program: &'a str,
    folders: Folders,
}

/// The bytes of the file of this path: as the editor has it, if it is open.
pub fn read_text<F: Folder>(
    alloc: Global,
    texts: &Texts,
    folder: &F,
    path: &str,
) -> Result<Option<Vec<u8>>, AllocError> {
    match texts.get(path) {
        Some(open) => Ok(Some(Vec::from_slice(alloc, open.text.bytes())?)),
        None => folder.read(alloc, path),
    }
}

impl<'a, F: Folder> Places<'a, F> {
    /// The folder of the program of this file, and behind it these folders.
    pub fn of(
        alloc: Global,
        texts: &'a Texts,
        folder: &'a F,
        program: &'a str,
        libraries: &[String],
    ) -> Result<Places<'a, F>, AllocError> {
        Ok(Places {
            alloc,
            texts,
            folder,
            program,
            folders: Folders::of(alloc, program, libraries)?,
        })
    }

    /// What stands in front of the names of the files of each folder.
    pub fn fronts(&self) -> &[String] {
        &self.folders.fronts
    }

    /// The path of a module's file in the folder of this number.
    pub fn path_of(&self, number: usize, module: &Name, part: Part) -> Result<String, AllocError> {
        self.folders.path_of(self.alloc, number, module, part)
    }
}

impl<F: Folder> ModuleFolders for Places<'_, F> {
    ghost use Rattle.std.specs.Vec.{vec_len};

    ghost count = { λ p. vec_len p.folders.fronts };

    // Of what a file holds, nothing is known.
    ghost gives = { λ _ _ _ _ _. Unit {0} };

    fn count(&self) -> usize {
        self.folders.fronts.len()
    }

    // The program's own file is read already, so it is in no folder.
    fn read(
        &self,
        alloc: Global,
        folder: usize,
        module: &Name,
        part: Part,
    ) -> Result<Option<Vec<u8>>, FindFault> {
        let path = self.path_of(folder, module, part)?;
        if path.as_str() == self.program {
            return Ok(None);
        }
        Ok(read_text(alloc, self.texts, self.folder, path.as_str())?)
    }
}
