//! Names in scope.

ghost use Rattle.std.specs.Prelude.{◌≡◌, Ok, IfOk, OnOk, Option};
ghost use Rattle.std.specs.List.{fold};
ghost use Rattle.std.specs.Option.{option_copied};
ghost use Rattle.check_scope.specs.Elaborated.{least, plain};
ghost use Rattle.check_scope.specs.Scopes.{sight_of_entry, seen_at, in_block, nearer, or_outside, known_outside, sight_of, fields_made, fields_at, field_at, field_in, open_field, heading_means, means_seen, means_as, looked_up, is_free, with_known, unless_declared, declare_name, begin_name, head_name, is_begun, finish_name, is_one_origin, is_again, import_name, mark_name};

use crate::elaborated::{Elaborated, report};
use crate::known::{Known, Origin};
use crate::meaningless::{Meaningless, Sought, plain};
use m2_rule::{Breach, Rule};
use m2_tree::{Ident, Pos};
use std::alloc::{AllocError, Global};
use std::mem;
use tree_parts::{Items, Shared};
use typed_tree::{
    Dictionary, Made, Meaning, OpenedField, Reached, Shape, Table, TypeNo, Types, made_of,
};

/// The names of a block around the innermost one.
#[derive(Drop)]
pub struct Block<T> {
    pub names: Dictionary<Known<T>>,
    /// How many of them stand before the procedure in which the place lies. Of the others only procedures are known.
    pub seen: usize,
}

/// The record of a WITH.
#[derive(Clone, Copy, PartialEq, Eq)]
pub struct OpenedRecord {
    /// The number of the WITH among those around the place, the outermost first, from 0.
    pub number: usize,
    pub of: TypeNo,
}

/// What is known at a place of a module.
pub struct Scope<T> {
    /// The tables of the definitions that the module imports.
    pub tables: Items<Shared<Table>>,
    pub types: Types,
    /// The types of the variables that the module has declared so far.
    pub variables: Items<TypeNo>,
    /// The headings of the procedures that the module has declared so far.
    pub procedures: Items<TypeNo>,
    /// How many procedures stand around the place.
    pub level: usize,
    /// The names of the innermost block.
    pub own: Dictionary<Known<T>>,
    /// The names of the blocks around it, the predeclared names first.
    pub outer: Items<Block<T>>,
    /// The records of the WITHs around the place, the outermost first. Their fields come before all other names.
    pub withs: Items<OpenedRecord>,
}

// Written by hand, so that proofs above take a drop as one call, and not as one for each field.
impl<T: Drop> Drop for Scope<T> {
    fn drop(self) {
        let Scope {
            tables,
            types,
            variables,
            procedures,
            level: _,
            own,
            outer,
            withs,
        } = self;
        drop(tables);
        drop(types);
        drop(variables);
        drop(procedures);
        drop(own);
        drop(outer);
        drop(withs);
    }
}

impl Scope<Breach> {
    /// The types that are known, and the types of the module's variables. What else is known is dropped.
    pub fn into_types(self, alloc: Global) -> (Types, Items<TypeNo>)
        ensures { result ≡ (self.types, self.variables) }
    {
        let mut scope = self;
        let none = Types {
            home: 0,
            own: Items::new(alloc),
            others: Reached::new(alloc),
        };
        let types = mem::replace(&mut scope.types, none);
        let variables = mem::replace(&mut scope.variables, Items::new(alloc));
        (types, variables)
    }
}

/// What is known of a name, and whether it stands before the procedure in which it is used.
type Sight<'a> = Option<(&'a Known<Breach>, bool)>;

fn in_block<'a>(block: &'a Block<Breach>, name: &[u8]) -> Sight<'a>
    ensures { sight_of_entry result ≡ in_block name.now block.now }
{
    let place = block.names.place(name)?;
    let (_, known) = block.names.get(place)?;
    Some((known, place < block.seen))
}

fn or_outside<'a>(near: Sight<'a>, far: Sight<'a>) -> Sight<'a>
    ensures { sight_of_entry result
        ≡ or_outside (sight_of_entry near.entry) (sight_of_entry far.entry) }
{
    match near {
        Some(known) => Some(known),
        None => far,
    }
}

fn known_outside<'a>(outer: &'a [Block<Breach>], name: &[u8]) -> Sight<'a>
    ensures { sight_of_entry result ≡ known_outside name.now outer.now }
{
    let mut known = None;
    for block in outer {
        known = or_outside(in_block(block, name), known);
    }
    known
}

fn known_in<'a>(scope: &'a Scope<Breach>, name: &[u8]) -> Sight<'a>
    ensures { sight_of_entry result ≡ sight_of name.now scope.now }
{
    match scope.own.find(name) {
        Some(known) => Some((known, true)),
        None => known_outside(scope.outer.as_slice(), name),
    }
}

/// What a declaration says of a name.
fn declared_means(means: &Elaborated<Meaning>) -> Result<Sought<Meaning>, AllocError>
    ensures { IfOk result (λ m. m ≡ plain means.now) }
{
    match means {
        Err(breach) => Ok(Err(Meaningless::Broken(*breach))),
        Ok(meaning) => Ok(Ok(meaning.copy()?)),
    }
}

/// The same of a procedure.
fn heading_says(means: &Sought<Meaning>) -> Result<Sought<Meaning>, AllocError>
    ensures { IfOk result (λ m. m ≡ means.now) }
{
    match means {
        Err(meaningless) => Ok(Err(*meaningless)),
        Ok(meaning) => Ok(Ok(meaning.copy()?)),
    }
}

fn means_seen(at: Pos, known: &Known<Breach>, seen: bool) -> Result<Sought<Meaning>, AllocError>
    ensures { IfOk result (λ m. m ≡ means_seen least at known.now seen) }
{
    match known {
        Known::Later | Known::Begun => Ok(plain(report(at, Rule::Undeclared))),
        Known::Ahead => Ok(Ok(Meaning::Ahead)),
        Known::Headed(means) => heading_says(means),
        Known::Declared(_, means) => {
            if seen {
                declared_means(means)
            } else {
                Ok(plain(report(at, Rule::Undeclared)))
            }
        }
    }
}

fn means_as(at: Pos, known: Sight<'_>) -> Result<Sought<Meaning>, AllocError>
    ensures { IfOk result
        (λ m. m ≡ means_as least at (sight_of_entry known.entry)) }
{
    match known {
        None => Ok(plain(report(at, Rule::Undeclared))),
        Some((known, seen)) => means_seen(at, known, seen),
    }
}

fn fields_made(made: Option<&Made>) -> Option<&Dictionary<TypeNo>>
    ensures { option_copied result ≡ fields_made (option_copied made.entry) }
{
    match made {
        None => None,
        Some(made) => match &made.shape {
            Shape::Record(fields) => Some(fields),
            Shape::Scalar(_)
            | Shape::Set
            | Shape::Array(_, _)
            | Shape::Procedure(_)
            | Shape::Open(_) => None,
        },
    }
}

/// The fields of a record type, each at the place of its number.
pub fn fields_of(types: &Types, t: TypeNo) -> Option<&Dictionary<TypeNo>>
    ensures { option_copied result ≡ fields_at types.now t }
{
    fields_made(made_of(types, t))
}

fn field_at(with: OpenedRecord, fields: &Dictionary<TypeNo>, name: &[u8]) -> Option<OpenedField>
    ensures { result ≡ field_at with name.now fields.now }
{
    let number = fields.place(name)?;
    let (_, of) = fields.get(number)?;
    Some(OpenedField {
        with: with.number,
        whole: with.of,
        number,
        of: *of,
    })
}

fn field_in(types: &Types, with: OpenedRecord, name: &[u8]) -> Option<OpenedField>
    ensures { result ≡ field_in types.now name.now with }
{
    match fields_of(types, with.of) {
        None => None,
        Some(fields) => field_at(with, fields, name),
    }
}

/// The field that a name means under the WITHs around it.
fn open_field(types: &Types, withs: &[OpenedRecord], name: &[u8]) -> Option<OpenedField>
    ensures { result ≡ open_field types.now name.now withs.now }
{
    match withs {
        [] => None,
        [with, inner @ ..] => match open_field(types, inner, name) {
            Some(field) => Some(field),
            None => field_in(types, *with, name),
        },
    }
}

/// What a name means where it is used.
pub fn looked_up(scope: &Scope<Breach>, name: &Ident) -> Result<Sought<Meaning>, AllocError>
    ensures { IfOk result (λ m. m ≡ looked_up least scope.now name.now) }
{
    let bytes = name.name.as_bytes();
    match open_field(&scope.types, scope.withs.as_slice(), bytes) {
        Some(field) => Ok(Ok(Meaning::Field(field))),
        None => means_as(name.pos, known_in(scope, bytes)),
    }
}

fn is_free(known: Option<&Known<Breach>>) -> bool
    ensures { result ≡ is_free (option_copied known.entry) }
{
    match known {
        None => true,
        Some(known) => match known {
            Known::Later | Known::Ahead => true,
            Known::Begun | Known::Headed(_) | Known::Declared(_, _) => false,
        },
    }
}

fn with_known(
    alloc: Global,
    scope: &mut Scope<Breach>,
    name: &[u8],
    known: Known<Breach>,
) -> Result<(), AllocError>
    ensures { OnOk result (scope.new ≡ with_known name.now known scope.old) }
{
    scope.own.enter(alloc, name, known)
}

/// Adds a name of the block with what is known of it, unless it is declared.
fn add_known(
    alloc: Global,
    scope: &mut Scope<Breach>,
    name: &Ident,
    known: Known<Breach>,
) -> Result<Elaborated<()>, AllocError>
    ensures { IfOk result (λ j. (scope.new, j) ≡ unless_declared least scope.old name.now known) }
{
    let bytes = name.name.as_bytes();
    if !is_free(scope.own.find(bytes)) {
        return Ok(report(name.pos, Rule::DeclaredTwice));
    }
    with_known(alloc, scope, bytes, known)?;
    Ok(Ok(()))
}

/// Declares a name, unless it is declared.
pub fn declare(
    alloc: Global,
    scope: &mut Scope<Breach>,
    name: &Ident,
    means: Elaborated<Meaning>,
) -> Result<Elaborated<()>, AllocError>
    ensures { IfOk result (λ j. (scope.new, j) ≡ declare_name least scope.old name.now means) }
{
    add_known(alloc, scope, name, Known::Declared(Origin::Here, means))
}

/// Begins the declaration of a name, unless it is declared.
pub fn begin(
    alloc: Global,
    scope: &mut Scope<Breach>,
    name: &Ident,
) -> Result<Elaborated<()>, AllocError>
    ensures { IfOk result (λ j. (scope.new, j) ≡ begin_name least scope.old name.now) }
{
    add_known(alloc, scope, name, Known::Begun)
}

/// Declares a procedure by the meaning of its heading, unless its name is declared.
pub fn head(
    alloc: Global,
    scope: &mut Scope<Breach>,
    name: &Ident,
    means: Sought<Meaning>,
) -> Result<Elaborated<()>, AllocError>
    ensures { IfOk result (λ j. (scope.new, j) ≡ head_name least scope.old name.now means) }
{
    add_known(alloc, scope, name, Known::Headed(means))
}

fn is_begun(known: Option<&Known<Breach>>) -> bool
    ensures { result ≡ is_begun (option_copied known.entry) }
{
    match known {
        None => false,
        Some(known) => match known {
            Known::Begun => true,
            Known::Later | Known::Ahead | Known::Headed(_) | Known::Declared(_, _) => false,
        },
    }
}

/// Finishes the declaration of a name that has begun.
pub fn finish(
    alloc: Global,
    scope: &mut Scope<Breach>,
    name: &Ident,
    means: Elaborated<Meaning>,
) -> Result<(), AllocError>
    ensures { OnOk result (scope.new ≡ finish_name scope.old name.now means) }
{
    if !is_begun(scope.own.find(name.name.as_bytes())) {
        return Ok(());
    }
    with_known(
        alloc,
        scope,
        name.name.as_bytes(),
        Known::Declared(Origin::Here, means),
    )
}

fn is_one_origin(first: Origin, second: Origin) -> bool
    ensures { result ≡ is_one_origin first second }
{
    match first {
        Origin::Here => false,
        Origin::Module(m) => match second {
            Origin::Module(n) => m == n,
            Origin::Here | Origin::Export(_) => false,
        },
        Origin::Export(m) => match second {
            Origin::Export(n) => m == n,
            Origin::Here | Origin::Module(_) => false,
        },
    }
}

fn is_again(known: Option<&Known<Breach>>, origin: Origin) -> bool
    ensures { result ≡ is_again (option_copied known.entry) origin }
{
    match known {
        None => false,
        Some(known) => match known {
            Known::Later | Known::Ahead | Known::Begun | Known::Headed(_) => false,
            Known::Declared(first, _) => is_one_origin(*first, origin),
        },
    }
}

/// Imports a name, unless it is declared. The same declaration may come twice.
pub fn import(
    alloc: Global,
    scope: &mut Scope<Breach>,
    at: Pos,
    name: &[u8],
    origin: Origin,
    means: Elaborated<Meaning>,
) -> Result<Elaborated<()>, AllocError>
    ensures { IfOk result (λ j.
        (scope.new, j) ≡ import_name least scope.old at name.now origin means) }
{
    let known = scope.own.find(name);
    if is_again(known, origin) {
        return Ok(Ok(()));
    }
    if !is_free(known) {
        return Ok(report(at, Rule::DeclaredTwice));
    }
    with_known(alloc, scope, name, Known::Declared(origin, means))?;
    Ok(Ok(()))
}

/// Marks a name as one that the block declares, unless it is marked.
pub fn mark(
    alloc: Global,
    scope: &mut Scope<Breach>,
    name: &Ident,
    known: Known<Breach>,
) -> Result<(), AllocError>
    ensures { OnOk result (scope.new ≡ mark_name name.now known scope.old) }
{
    match scope.own.find(name.name.as_bytes()) {
        Some(_) => Ok(()),
        None => with_known(alloc, scope, name.name.as_bytes(), known),
    }
}
