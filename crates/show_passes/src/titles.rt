//! What the functions of a module are, in the order in which the compiler makes them: five that each module has, the body,
//! the procedures of the definition, the other procedures, and those that are declared in procedures.

use m2_tree::{Block, Contents, Decl, Def, Heading, Ident, Module, Pos};
use show_code::Page;
use std::alloc::{AllocError, Global};
use typed_tree::Dictionary;

/// What the functions are that each module has before its own.
const HELPERS: [&str; 5] = [
    "copies bytes",
    "fills bytes with 0",
    "checks a range",
    "DIV",
    "MOD",
];

/// What functions are, one after another, and the places of the names of the module and its procedures among them.
#[derive(Drop)]
pub struct Titles {
    alloc: Global,
    pub titles: Vec<Vec<u8>>,
    pub places: Vec<Pos>,
}

impl Titles {
    /// What no function is.
    pub fn new(alloc: Global) -> Titles {
        Titles {
            alloc,
            titles: Vec::new(alloc),
            places: Vec::new(alloc),
        }
    }

    /// A function that is told by a word.
    pub fn add_word(&mut self, word: &str) -> Result<(), AllocError> {
        self.titles
            .push(Vec::from_slice(self.alloc, word.as_bytes())?)?;
        Ok(())
    }

    /// A function that is told by a word, a name and its place.
    fn add_named(&mut self, word: &str, name: &[u8], pos: Pos) -> Result<(), AllocError> {
        let mut page = Page::new(self.alloc);
        page.put_all(&[word.as_bytes(), b" ", name, b" "]);
        page.put_place(pos);
        self.titles.push(page.finish()?)?;
        self.places.push(pos)?;
        Ok(())
    }

    fn add_helpers(&mut self) -> Result<(), AllocError> {
        for word in HELPERS {
            self.add_word(word)?;
        }
        Ok(())
    }

    /// The procedures of a definition, each at its place in the body.
    fn add_defined(&mut self, defs: &[Def], places: &Dictionary<Pos>) -> Result<(), AllocError> {
        for def in defs {
            if let Def::Procedure(heading) = def {
                let name = heading.name.name.as_bytes();
                let pos = places.find(name).map_or(heading.name.pos, |it| *it);
                self.add_named("procedure", name, pos)?;
            }
        }
        Ok(())
    }

    /// A procedure of a body, if it is in no definition.
    fn add_own(&mut self, heading: &Heading, defined: &Dictionary<Pos>) -> Result<(), AllocError> {
        let name = heading.name.name.as_bytes();
        if defined.find(name).is_some() {
            return Ok(());
        }
        self.add_named("procedure", name, heading.name.pos)
    }

    /// The procedures of a body that are in no definition.
    fn add_all_own(&mut self, decls: &[Decl], defined: &Dictionary<Pos>) -> Result<(), AllocError> {
        for decl in decls {
            if let Decl::Procedure(heading, _) = decl {
                self.add_own(heading, defined)?;
            }
        }
        Ok(())
    }

    /// The procedures that are declared in the procedures of a body.
    fn add_nested(&mut self, decls: &[Decl]) -> Result<(), AllocError> {
        for decl in decls {
            if let Decl::Procedure(_, block) = decl {
                add_locals(self, block.get())?;
            }
        }
        Ok(())
    }
}

/// The procedures that a procedure declares, and those inside of them.
#[cycle(locals)]
fn add_locals(titles: &mut Titles, block: &Block) -> Result<(), AllocError> {
    for decl in block.decls.as_slice() {
        add_local(titles, decl)?;
    }
    Ok(())
}

/// A procedure that a procedure declares, and those inside of it.
#[cycle(locals)]
fn add_local(titles: &mut Titles, decl: &Decl) -> Result<(), AllocError> {
    match decl {
        Decl::Procedure(heading, block) => {
            let name = &heading.name;
            titles.add_named("local procedure", name.name.as_bytes(), name.pos)?;
            add_locals(titles, block.get())
        }
        Decl::Constants(_) | Decl::Types(_) | Decl::Variables(_) => Ok(()),
    }
}

/// Enters a name with its place.
fn enter(alloc: Global, places: &mut Dictionary<Pos>, name: &Ident) -> Result<(), AllocError> {
    places.enter(alloc, name.name.as_bytes(), name.pos)
}

/// The places of the procedures of a body.
fn places_in(alloc: Global, decls: &[Decl]) -> Result<Dictionary<Pos>, AllocError> {
    let mut places = Dictionary::new(alloc);
    for decl in decls {
        if let Decl::Procedure(heading, _) = decl {
            enter(alloc, &mut places, &heading.name)?;
        }
    }
    Ok(places)
}

/// The places of the procedures of a definition.
fn places_of(alloc: Global, defs: &[Def]) -> Result<Dictionary<Pos>, AllocError> {
    let mut places = Dictionary::new(alloc);
    for def in defs {
        if let Def::Procedure(heading) = def {
            enter(alloc, &mut places, &heading.name)?;
        }
    }
    Ok(places)
}

/// What a definition declares, if there is one.
fn defs_of(definition: Option<&Module>) -> &[Def] {
    match definition {
        None => &[],
        Some(tree) => match &tree.contents {
            Contents::Definition(defs) => defs.as_slice(),
            Contents::Implementation(_) | Contents::Program(_) => &[],
        },
    }
}

/// What a body declares.
fn decls_of(tree: &Module) -> &[Decl] {
    match &tree.contents {
        Contents::Definition(_) => &[],
        Contents::Implementation(block) | Contents::Program(block) => block.decls.as_slice(),
    }
}

/// What the functions of the module of a body are, from its tree and the tree of its definition.
pub fn titles_of(
    alloc: Global,
    tree: &Module,
    definition: Option<&Module>,
) -> Result<Titles, AllocError> {
    let defs = defs_of(definition);
    let decls = decls_of(tree);
    let mut titles = Titles::new(alloc);
    titles.add_helpers()?;
    titles.add_named("body of", tree.name.name.as_bytes(), tree.name.pos)?;
    titles.add_defined(defs, &places_in(alloc, decls)?)?;
    titles.add_all_own(decls, &places_of(alloc, defs)?)?;
    titles.add_nested(decls)?;
    Ok(titles)
}
