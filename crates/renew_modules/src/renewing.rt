//! What has to be compiled is compiled, and all is linked.

use crate::planning::Plan;
use crate::spreading::numbers_of;
use crate::trees::{Trees, Whole};
use build_jobs::{Read, SourceFile, read_text};
use compile_module::{Made, compile_trees};
use indexmap::IndexMap;
use kept_modules::{Definition, Kept, Part, defined_by, linked_by, short_sum};
use link_parts::{LinkFault, Sizes, link_modules};
use list_imports::add_imports;
use m2_emit::ModuleBytes;
use m2_tree::Module;
use std::alloc::{AllocError, Global};
use std::sync::Arc;

/// A program of which a part was compiled.
#[derive(Drop)]
pub struct Renewal {
    /// The bytes of link.wasm.
    pub link: Vec<u8>,
    /// The modules that were compiled, and their bytes.
    pub compiled: Vec<(String, Vec<u8>)>,
    /// What is kept of the program now.
    pub kept: Kept,
}

/// A body that was compiled: what is kept of it, and its bytes.
type Compiled = (Part, Vec<u8>);

/// A body that has to be compiled.
#[derive(Clone, Copy)]
struct Body<'a> {
    /// What was kept of it.
    part: &'a Part,
    file: &'a SourceFile,
    /// The checksum of its text.
    text: &'a str,
}

/// The names of the files of a body and of the definitions that it needs, and their trees.
#[derive(Drop)]
struct Needed {
    names: Vec<String>,
    trees: Vec<Arc<Module>>,
}

impl Needed {
    /// Adds a file.
    fn add(&mut self, alloc: Global, name: &str, tree: Arc<Module>) -> Result<(), AllocError> {
        self.names.push(String::from_str(alloc, name)?)?;
        self.trees.push(tree)?;
        Ok(())
    }

    /// The trees under the names of their files.
    fn named(&self, alloc: Global) -> Result<Vec<(&str, &Module)>, AllocError> {
        let mut all = Vec::new(alloc);
        for (name, tree) in self.names.iter().zip(&self.trees) {
            all.push((name.as_str(), &**tree))?;
        }
        Ok(all)
    }

    /// Adds the definition of this number.
    fn add_definition(
        &mut self,
        alloc: Global,
        whole: &Whole<'_>,
        trees: &Trees,
        number: usize,
    ) -> Result<(), AllocError> {
        let place = whole.plan.definitions.get(number).copied();
        let file = place.and_then(|it| whole.files.get(it));
        if let (Some(file), Some(tree)) = (file, trees.get(number)) {
            self.add(alloc, file.name.as_str(), Arc::try_clone(tree)?)?;
        }
        Ok(())
    }
}

/// The modules that a body needs first: its own, if it is an implementation, and those that it imports.
fn first_names(alloc: Global, part: &Part, tree: &Module) -> Result<Vec<String>, AllocError> {
    let mut names = Vec::new(alloc);
    if !part.is_program {
        names.push(String::from_str(alloc, part.name.as_str())?)?;
    }
    add_imports(alloc, &mut names, tree)?;
    Ok(names)
}

/// The files of a body with this tree and of the definitions of these numbers.
fn files_of(
    alloc: Global,
    whole: &Whole<'_>,
    file: &SourceFile,
    tree: Arc<Module>,
    trees: &Trees,
    numbers: &[usize],
) -> Result<Needed, AllocError> {
    let mut needed = Needed {
        names: Vec::new(alloc),
        trees: Vec::new(alloc),
    };
    needed.add(alloc, file.name.as_str(), tree)?;
    for number in numbers {
        needed.add_definition(alloc, whole, trees, *number)?;
    }
    Ok(needed)
}

/// What is kept of a body that was compiled from a text with this checksum.
fn part_of(
    alloc: Global,
    module: &ModuleBytes,
    is_program: bool,
    text: &str,
    imports: Vec<String>,
) -> Result<Part, AllocError> {
    Ok(Part {
        name: String::from_utf8_lossy(alloc, module.name.as_bytes())?,
        is_program,
        sizes: Sizes {
            variables: module.variables,
            texts: module.texts,
            slots: module.slots,
        },
        text: String::from_str(alloc, text)?,
        code: short_sum(alloc, module.bytes.as_slice())?,
        imports,
        interfaces: Vec::new(alloc),
    })
}

/// What became of a body whose text has this checksum. None if something is refused.
fn compiled_of(alloc: Global, needed: &Needed, text: &str) -> Result<Option<Compiled>, AllocError> {
    let trees = needed.named(alloc)?;
    match compile_trees(alloc, &trees)? {
        Made::Built {
            module,
            is_program,
            imports,
            ..
        } => {
            let module = module.get();
            let part = part_of(alloc, module, is_program, text, imports)?;
            Ok(Some((part, Vec::from_slice(alloc, module.bytes.as_slice())?)))
        }
        Made::Refused(_) | Made::Defined => Ok(None),
    }
}

/// Compiles a body of this tree.
fn compile_tree(
    alloc: Global,
    whole: &Whole<'_>,
    numbers: &IndexMap<&[u8], usize>,
    trees: &mut Trees,
    body: &Body<'_>,
    tree: Arc<Module>,
) -> Result<Option<Compiled>, AllocError> {
    let names = first_names(alloc, body.part, &tree)?;
    let Some(others) = trees.needed(alloc, whole, numbers, names)? else {
        return Ok(None);
    };
    let needed = files_of(alloc, whole, body.file, tree, trees, &others)?;
    compiled_of(alloc, &needed, body.text)
}

/// The body of this number.
fn body_at<'a>(whole: &Whole<'a>, number: usize) -> Option<Body<'a>> {
    let place = whole.plan.bodies.get(number).copied()?;
    Some(Body {
        part: whole.kept.bodies.get(number)?,
        file: whole.files.get(place)?,
        text: whole.plan.texts.get(place)?.as_str(),
    })
}

/// Compiles the body of this number. None if something is refused.
fn compile_body(
    alloc: Global,
    whole: &Whole<'_>,
    numbers: &IndexMap<&[u8], usize>,
    trees: &mut Trees,
    number: usize,
) -> Result<Option<Compiled>, AllocError> {
    let Some(body) = body_at(whole, number) else {
        return Ok(None);
    };
    match read_text(alloc, &body.file.bytes)? {
        Read::Parsed(tree) => compile_tree(alloc, whole, numbers, trees, &body, tree),
        Read::Refused(_, _) => Ok(None),
    }
}

/// Whether a body is still the one that was kept under its number, by its name and by what it is.
fn is_same_module(kept: Option<&Part>, now: &Part) -> bool {
    match kept {
        None => false,
        Some(kept) => {
            kept.is_program == now.is_program && kept.name.as_bytes() == now.name.as_bytes()
        }
    }
}

/// Compiles what has to be compiled. None if something is refused, or a module has another name than before.
fn compile_stale(
    alloc: Global,
    whole: &Whole<'_>,
    trees: &mut Trees,
) -> Result<Option<Vec<Compiled>>, AllocError> {
    let numbers = numbers_of(alloc, whole.kept)?;
    let mut all = Vec::new(alloc);
    for stale in &whole.plan.stale {
        let Some(made) = compile_body(alloc, whole, &numbers, trees, stale.body)? else {
            return Ok(None);
        };
        if !is_same_module(whole.kept.bodies.get(stale.body), &made.0) {
            return Ok(None);
        }
        all.push(made)?;
    }
    Ok(Some(all))
}

/// Copies names.
fn copies(alloc: Global, names: &[String]) -> Result<Vec<String>, AllocError> {
    let mut all = Vec::new(alloc);
    for name in names {
        all.push(String::from_str(alloc, name.as_str())?)?;
    }
    Ok(all)
}

/// The modules that a definition imports now.
fn imports_now(
    alloc: Global,
    definition: &Definition,
    tokens: &str,
    tree: Option<&Arc<Module>>,
) -> Result<Option<Vec<String>>, AllocError> {
    if definition.tokens.as_bytes() == tokens.as_bytes() {
        return Ok(Some(copies(alloc, &definition.imports)?));
    }
    let Some(tree) = tree else {
        return Ok(None);
    };
    let mut imports = Vec::new(alloc);
    add_imports(alloc, &mut imports, tree)?;
    Ok(Some(imports))
}

/// What is kept of the definition of this number now, whose text has this checksum. None if it has no tree.
fn definition_now(
    alloc: Global,
    whole: &Whole<'_>,
    trees: &mut Trees,
    number: usize,
    text: &str,
) -> Result<Option<Definition>, AllocError> {
    let kept = whole.kept.definitions.get(number);
    let (Some(definition), Some(tokens)) = (kept, whole.plan.tokens.get(number)) else {
        return Ok(None);
    };
    let is_changed = definition.tokens.as_bytes() != tokens.as_bytes();
    if is_changed && !trees.read(alloc, whole, number)? {
        return Ok(None);
    }
    let Some(imports) = imports_now(alloc, definition, tokens.as_str(), trees.get(number))? else {
        return Ok(None);
    };
    Ok(Some(Definition {
        name: String::from_str(alloc, definition.name.as_str())?,
        text: String::from_str(alloc, text)?,
        tokens: String::from_str(alloc, tokens.as_str())?,
        imports,
    }))
}

/// What is kept of the definitions now, in the order of their files. None if one has no tree.
fn definitions_now(
    alloc: Global,
    whole: &Whole<'_>,
    trees: &mut Trees,
) -> Result<Option<Vec<Definition>>, AllocError> {
    let numbers = numbers_of(alloc, whole.kept)?;
    let mut all = Vec::new(alloc);
    for (file, text) in whole.files.iter().zip(&whole.plan.texts) {
        let name = defined_by(file.name.as_str());
        let number = name.and_then(|it| numbers.get(it.as_bytes()).copied());
        if let Some(number) = number {
            match definition_now(alloc, whole, trees, number, text.as_str())? {
                Some(definition) => all.push(definition)?,
                None => return Ok(None),
            }
        }
    }
    Ok(Some(all))
}

/// The places of modules among those that start, by their names.
fn starts_of(alloc: Global, link: &[u8]) -> Result<IndexMap<Vec<u8>, usize>, AllocError> {
    let mut starts = IndexMap::new(alloc);
    let Some(linked) = linked_by(alloc, link)? else {
        return Ok(starts);
    };
    for (number, it) in linked.iter().enumerate() {
        starts.insert(Vec::from_slice(alloc, it.name.as_bytes())?, number)?;
    }
    Ok(starts)
}

/// Bodies, each with the number of those in front of it: the first has none, and the others stand as they start.
fn ranked(
    alloc: Global,
    bodies: Vec<Part>,
    starts: &IndexMap<Vec<u8>, usize>,
) -> Result<Vec<(usize, Part)>, AllocError> {
    let mut ranked = Vec::new(alloc);
    for (number, body) in bodies.into_iter().enumerate() {
        let start = starts.get(body.name.as_bytes()).copied().unwrap_or(0);
        let rank = if number == 0 {
            0
        } else {
            start.saturating_add(1)
        };
        ranked.push((rank, body))?;
    }
    Ok(ranked)
}

/// The program module, and behind it the others in the order in which link starts them.
fn in_order(alloc: Global, bodies: Vec<Part>, link: &[u8]) -> Result<Vec<Part>, AllocError> {
    let starts = starts_of(alloc, link)?;
    let mut all = ranked(alloc, bodies, &starts)?;
    all.sort_by(|a, b| a.0.cmp(&b.0))?;
    let mut ordered = Vec::new(alloc);
    for (_, body) in all {
        ordered.push(body)?;
    }
    Ok(ordered)
}

/// Takes what was compiled apart: the bodies that were kept with those that are new, and the bytes of these.
fn taken_apart(
    alloc: Global,
    bodies: Vec<Part>,
    plan: &Plan,
    compiled: Vec<Compiled>,
) -> Result<(Vec<Part>, Vec<(String, Vec<u8>)>), AllocError> {
    let mut bodies = bodies;
    let mut codes = Vec::new(alloc);
    for (stale, (part, code)) in plan.stale.iter().zip(compiled) {
        codes.push((String::from_str(alloc, part.name.as_str())?, code))?;
        if let Some(body) = bodies.get_mut(stale.body) {
            *body = part;
        }
    }
    Ok((bodies, codes))
}

/// Links what was kept and what was compiled. None if it does not link.
fn linked(
    alloc: Global,
    definitions: Vec<Definition>,
    bodies: Vec<Part>,
    compiled: Vec<(String, Vec<u8>)>,
    pages: u32,
) -> Result<Option<Renewal>, AllocError> {
    match link_modules(alloc, &bodies, pages) {
        Ok(link) => {
            let bodies = in_order(alloc, bodies, &link)?;
            let kept = Kept {
                definitions,
                bodies,
            };
            Ok(Some(Renewal {
                link,
                compiled,
                kept,
            }))
        }
        Err(LinkFault::NoMemory) => Err(AllocError),
        Err(_) => Ok(None),
    }
}

/// Compiles what the plan says, and links it with what was kept of the program of these files, for so many pages. None if something is
/// refused, or does not link: then the whole program has to be built. The only error is that memory ran out.
pub fn renew(
    alloc: Global,
    files: &[SourceFile],
    kept: Kept,
    plan: &Plan,
    pages: u32,
) -> Result<Option<Renewal>, AllocError> {
    let whole = Whole {
        files,
        kept: &kept,
        plan,
    };
    let mut trees = Trees::none(alloc, kept.definitions.len())?;
    let Some(compiled) = compile_stale(alloc, &whole, &mut trees)? else {
        return Ok(None);
    };
    let Some(definitions) = definitions_now(alloc, &whole, &mut trees)? else {
        return Ok(None);
    };
    let (bodies, codes) = taken_apart(alloc, kept.bodies, plan, compiled)?;
    linked(alloc, definitions, bodies, codes, pages)
}
