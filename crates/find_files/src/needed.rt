//! The definitions that one module needs.

use crate::finding::{Program, add_file, alone, say_find_fault, searched_by};
use crate::places::Places;
use command_words::Exit;
use find_modules::{FindFault, FoundModule, ModuleFolders, Part, find};
use m2_tree::{Contents, Module, Name};
use propose_mends::{free_name, program_around};
use std::alloc::{AllocError, Global};
use std::rt::Files;
use tool_words::Setting;

/// Folders in which a module is compiled alone: they give its own text, and of all other modules the definitions.
#[derive(Drop)]
struct Around<'a, R> {
    places: Places<'a, R>,
    /// Which of the two texts it is, of the module of this name.
    part: Part,
    module: &'a Name,
    text: &'a [u8],
}

impl<R: Files + AllocGlobal> ModuleFolders for Around<'_, R> {
    ghost use Rattle.std.specs.Vec.{vec_len};

    ghost count = { λ a. vec_len a.places.folders.fronts };

    // Of what a file holds, nothing is known.
    ghost gives = { λ _ _ _ _ _. Unit {0} };

    fn count(&self) -> usize {
        self.places.count()
    }

    fn read(
        &self,
        alloc: Global,
        folder: usize,
        module: &Name,
        part: Part,
    ) -> Result<Option<Vec<u8>>, FindFault> {
        if part == self.part && module.as_bytes() == self.module.as_bytes() {
            return Ok(Some(Vec::from_slice(alloc, self.text)?));
        }
        match part {
            Part::Definition => self.places.read(alloc, folder, module, part),
            Part::Implementation => Ok(None),
        }
    }
}

/// A text that imports what this module needs: its own, or one that imports the module, so that its definition is found too.
fn start_of(alloc: Global, tree: &Module, text: &[u8]) -> Result<Vec<u8>, AllocError> {
    if matches!(&tree.contents, Contents::Program(_)) {
        return Vec::from_slice(alloc, text);
    }
    let module = String::from_utf8_lossy(alloc, tree.name.name.as_bytes())?;
    let name = free_name(alloc, &[module.as_bytes()])?;
    program_around(alloc, name.as_str(), module.as_str())
}

/// Adds the definition of a module, or the name of one that is nowhere. The text that is compiled is there already.
fn add_definition<R: Files + Eprint + AllocGlobal>(
    rt: &R,
    is_verbose: bool,
    around: &Around<'_, R>,
    module: FoundModule,
    program: &mut Program,
) -> Result<(), AllocError> {
    let FoundModule { name, sources } = module;
    let Some(sources) = sources else {
        let name = String::from_utf8_lossy(rt.alloc(), name.as_bytes())?;
        program.lacking.push(name)?;
        return Ok(());
    };
    let is_own = name.as_bytes() == around.module.as_bytes();
    if is_own && around.part == Part::Definition {
        return Ok(());
    }
    let path = around
        .places
        .path_of(sources.folder, &name, Part::Definition)?;
    add_file(rt, is_verbose, path, sources.definition, &mut program.files)
}

/// The text, and the definitions among these modules.
fn with_definitions<R: Files + Eprint + AllocGlobal>(
    rt: &R,
    is_verbose: bool,
    around: &Around<'_, R>,
    modules: Vec<FoundModule>,
    path: &str,
) -> Result<Program, AllocError> {
    let text = Vec::from_slice(rt.alloc(), around.text)?;
    let mut program = alone(rt.alloc(), path, text)?;
    program.searched = searched_by(rt, &around.places)?;
    for module in modules {
        add_definition(rt, is_verbose, around, module, &mut program)?;
    }
    Ok(program)
}

/// Which of the two texts of a module a tree is. A program module has no other.
fn part_of(tree: &Module) -> Part {
    match &tree.contents {
        Contents::Definition(_) => Part::Definition,
        Contents::Implementation(_) | Contents::Program(_) => Part::Implementation,
    }
}

/// This text with this tree, and behind it the definitions that it needs, directly and through others, and its own if it is an
/// implementation. They are looked for in the folder of the file `place`, and then in those of the setting. A file that cannot be read
/// is reported.
pub fn find_definitions<R: Files + Eprint + AllocGlobal>(
    rt: &R,
    setting: &Setting,
    path: &str,
    place: &str,
    text: &[u8],
    tree: &Module,
) -> Result<Program, Exit> {
    let around = Around {
        places: Places::of(rt, place, &setting.libraries)?,
        part: part_of(tree),
        module: &tree.name.name,
        text,
    };
    let start = start_of(rt.alloc(), tree, text)?;
    match find(rt.alloc(), &around, &start) {
        Ok(modules) => Ok(with_definitions(rt, setting.is_verbose, &around, modules, path)?),
        Err(fault) => Err(say_find_fault(rt, fault)),
    }
}
