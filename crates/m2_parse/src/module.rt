//! Modules.

ghost use Rattle.std.specs.Prelude.{◌≡◌, [], ◌∷◌, option_map};
ghost use Rattle.m2_tree.specs.declared.token.Symbol.TheVariants.{Definition, Dot, From, Implementation};
ghost use Rattle.m2_tree.specs.declared.decl.Contents.TheVariants as held;
ghost use Rattle.def_grammar.specs.Rule.{import_rule, module_rule};
ghost use Rattle.def_grammar.specs.Grammar.{◌·◌, ◌▸◌, ◌◂◌, many, named, opt};
ghost use Rattle.def_grammar.specs.Ebnf.{contents, def, definitions, ident, import, symbol};
ghost use Rattle.def_grammar.specs.Tables.{symbols};
ghost use Rattle.def_grammar.specs.Trees.{contents_with, ident_of, is_there, module_with};
ghost use Rattle.def_grammar.specs.Refusal.{max_nesting, Answers, IsTree, Parses};
ghost use Rattle.def_grammar.specs.Reading.{is_among, read, read_rule, Reads, ReadsAs};

use crate::decl::{begins_decl, block, def};
use def_grammar::{GrammarRule, Kind, ParseError, Stop};
use m2_tree::{Block, Contents, Def, Ident, Import, Module, Symbol, Token};
use parse_expr::Cursor;
use std::alloc::Global;
use tree_parts::Items;

/// How deep procedures, statements, types and expressions nest.
const MAX_NESTING: usize = 200;

#[tactic(auto, using(def_grammar::proofs::Truth::symbols), unfolding(def_grammar::specs::Kinds::same_kind))]
fn begins_import(kind: Kind) -> bool
    ensures { result ≡ is_among kind (symbols (From ∷ Symbol.Import ∷ [])) }
{
    match kind {
        Kind::Symbol(symbol) => matches!(symbol, Symbol::From | Symbol::Import),
        Kind::Name | Kind::Number | Kind::Char | Kind::Text | Kind::End => false,
    }
}

/// The contents of a module that is no definition module.
fn contents_with(is_implementation: bool, block: Block) -> Contents
    ensures { result ≡ contents_with is_implementation block }
{
    if is_implementation {
        Contents::Implementation(block)
    } else {
        Contents::Program(block)
    }
}

/// The module behind a FROM, if there is one.
fn source(cursor: &mut Cursor) -> Result<Option<Ident>, Stop>
    ensures { ReadsAs (option_map ident_of) (read (opt (From ▸ ident)) max_nesting cursor.old)
        result cursor.new }
{
    if !cursor.eat(Symbol::From) {
        return Ok(None);
    }
    let name = cursor.ident()?;
    Ok(Some(name))
}

#[tactic(auto, using(def_grammar::proofs::Rules::import_is, def_grammar::proofs::Flat::idents_flat))]
fn import(cursor: &mut Cursor) -> Result<Import, Stop>
    ensures { Reads (read_rule max_nesting import_rule cursor.old) result cursor.new }
{
    let from = source(cursor)?;
    cursor.expect(Symbol::Import)?;
    let names = cursor.idents()?;
    cursor.expect(Symbol::Semicolon)?;
    Ok(Import { from, names })
}

fn imports(cursor: &mut Cursor) -> Result<Items<Import>, Stop>
    ensures { ReadsAs (λ xs. xs) (read (many import) max_nesting cursor.old) result cursor.new }
{
    let mut found = Items::new(cursor.alloc);
    while begins_import(cursor.peek()) {
        found.push(import(cursor)?)?;
    }
    Ok(found)
}

fn defs(cursor: &mut Cursor) -> Result<Items<Def>, Stop>
    ensures { ReadsAs (λ xs. xs) (read (many def) max_nesting cursor.old) result cursor.new }
{
    let mut found = Items::new(cursor.alloc);
    while begins_decl(cursor.peek()) {
        found.push(def(cursor, MAX_NESTING)?)?;
    }
    Ok(found)
}

/// What stands between the two names of a definition module.
fn definitions(cursor: &mut Cursor) -> Result<(Items<Import>, Items<Def>), Stop>
    ensures { Reads (read definitions max_nesting cursor.old) result cursor.new }
{
    cursor.expect(Symbol::Semicolon)?;
    let imports = imports(cursor)?;
    let defs = defs(cursor)?;
    cursor.expect(Symbol::End)?;
    Ok((imports, defs))
}

/// What stands between the two names of any other module.
fn contents(cursor: &mut Cursor) -> Result<(Items<Import>, Block), Stop>
    ensures { Reads (read contents max_nesting cursor.old) result cursor.new }
{
    cursor.expect(Symbol::Semicolon)?;
    let imports = imports(cursor)?;
    let block = block(cursor, MAX_NESTING)?;
    Ok((imports, block))
}

fn definition_module(cursor: &mut Cursor) -> Result<Module, Stop>
    ensures { ReadsAs (λ p. module_with p.0 p.1.0 (held.Definition p.1.1))
        (read (Definition ▸ Symbol.Module ▸ named definitions ◂ Dot) max_nesting cursor.old)
        result cursor.new }
{
    cursor.expect(Symbol::Definition)?;
    cursor.expect(Symbol::Module)?;
    let name = cursor.ident()?;
    let (imports, defs) = definitions(cursor)?;
    cursor.close(&name)?;
    cursor.expect(Symbol::Dot)?;
    Ok(Module {
        name,
        imports,
        contents: Contents::Definition(defs),
    })
}

/// An implementation module or a program module.
fn other_module(cursor: &mut Cursor) -> Result<Module, Stop>
    ensures { ReadsAs (λ p. module_with p.1.0 p.1.1.0 (contents_with (is_there p.0) p.1.1.1))
        (read (opt (symbol Implementation) · Symbol.Module ▸ named contents ◂ Dot) max_nesting
        cursor.old) result cursor.new }
{
    let is_implementation = cursor.has(Symbol::Implementation);
    cursor.expect(Symbol::Module)?;
    let name = cursor.ident()?;
    let (imports, block) = contents(cursor)?;
    cursor.close(&name)?;
    cursor.expect(Symbol::Dot)?;
    Ok(Module {
        name,
        imports,
        contents: contents_with(is_implementation, block),
    })
}

#[tactic(auto, using(def_grammar::proofs::Rules::module_is))]
fn module(cursor: &mut Cursor) -> Result<Module, Stop>
    ensures { Reads (read_rule max_nesting module_rule cursor.old) result cursor.new }
{
    if cursor.sees(Symbol::Definition) {
        let found = definition_module(cursor)?;
        cursor.end()?;
        return Ok(found);
    }
    let found = other_module(cursor)?;
    cursor.end()?;
    Ok(found)
}

/// The tree of a module, from the tokens of its text and the token of the text's end.
///
/// The grammar is the grammar of "Programming in Modula-2" (4th edition, Report), as far as docs/LANGUAGE.md takes it.
/// A list with no tree is refused at the least place: 11 for a closing name that is not the opening one, 12 for the
/// first token of the 201st level of nesting, and 13 (POINTER, QUALIFIED, EXPORT, SET, MODULE) or 10 (any other) for
/// the first token with which no module goes on. The other error is that memory ran out.
pub fn parse(alloc: Global, tokens: &[Token]) -> Result<Module, ParseError>
    // The tree is the tree of the tokens; a refusal is at the least place.
    ensures exact { Parses tokens.now result }
    // Tokens that have a tree are not refused, and it is the only one.
    ensures complete { (m : Module) → IsTree tokens.now m → Answers result m }
{
    let mut cursor = Cursor::new(alloc, tokens);
    match module(&mut cursor) {
        Ok(module) => {
            if !cursor.is_at_end() {
                return Err(ParseError::Refused(cursor.refusal(GrammarRule::Unfit)));
            }
            Ok(module)
        }
        Err(Stop::NoMemory) => Err(ParseError::NoMemory),
        Err(Stop::Refused(broken)) => Err(ParseError::Refused(cursor.refusal(broken))),
    }
}
