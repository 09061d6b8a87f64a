//! What an implementation module knows of its own definition.

ghost use Rattle.std.specs.Prelude.{◌≡◌, ◌++◌, IfOk, OnOk, map};
ghost use Rattle.std.specs.List.{fold};
ghost use Rattle.std.specs.Option.{option_map};
ghost use Rattle.check_definition.specs.Steps.{if_some};
ghost use Rattle.check_body.specs.Own.{with_own_name, own_names, with_exported_variable, exported_variables, with_exported_heading, exported_headings, with_field_copy, fields_copy, shape_copy, made_copy, types_made_in, own_types, implementation_scope};

use check_definition::{first_scope, with_table};
use check_scope::{Known, Origin, Scope};
use m2_rule::Breach;
use std::alloc::{AllocError, Global};
use tree_parts::{Items, Shared};
use typed_tree::{
    Dictionary, Formal, Made, Meaning, ModuleTypes, Shape, Signature, Table, TypeNo, Types,
};

// ---- names

fn with_own_name_if(
    alloc: Global,
    names: &mut Dictionary<Known<Breach>>,
    entry: Option<(&[u8], &Meaning)>,
) -> Result<(), AllocError>
    ensures { OnOk result (names.new
        ≡ if_some with_own_name names.old (option_map (λ e. (e.0.now, e.1.now)) entry.entry)) }
{
    match entry {
        None => Ok(()),
        Some((name, meaning)) => {
            let means = Ok(meaning.copy()?);
            names.enter(alloc, name, Known::Declared(Origin::Here, means))
        }
    }
}

fn own_names(
    alloc: Global,
    exported: &Dictionary<Meaning>,
) -> Result<Dictionary<Known<Breach>>, AllocError>
    ensures { IfOk result (λ names. names ≡ own_names exported.now) }
{
    let mut names = Dictionary::new(alloc);
    for place in 0..exported.len() {
        with_own_name_if(alloc, &mut names, exported.get(place))?;
    }
    Ok(names)
}

// ---- variables and procedures

fn with_variable_if(
    types: &mut Items<TypeNo>,
    entry: Option<(&[u8], &Meaning)>,
) -> Result<(), AllocError>
    ensures { OnOk result (types.new
        ≡ if_some with_exported_variable types.old
        (option_map (λ e. (e.0.now, e.1.now)) entry.entry)) }
{
    match entry {
        None => Ok(()),
        Some((_, meaning)) => match meaning {
            Meaning::Variable(variable) => types.push(variable.of),
            Meaning::Constant(_)
            | Meaning::Type(_, _)
            | Meaning::Local(_)
            | Meaning::Field(_)
            | Meaning::Procedure(_)
            | Meaning::LocalProcedure(_)
            | Meaning::Ahead
            | Meaning::Standard(_)
            | Meaning::Module(_) => Ok(()),
        },
    }
}

/// The types of the variables that a definition exports, in order.
pub fn exported_variables(
    alloc: Global,
    exported: &Dictionary<Meaning>,
) -> Result<Items<TypeNo>, AllocError>
    ensures { IfOk result (λ types. types ≡ exported_variables exported.now) }
{
    let mut types = Items::new(alloc);
    for place in 0..exported.len() {
        with_variable_if(&mut types, exported.get(place))?;
    }
    Ok(types)
}

fn with_heading_if(
    types: &mut Items<TypeNo>,
    entry: Option<(&[u8], &Meaning)>,
) -> Result<(), AllocError>
    ensures { OnOk result (types.new
        ≡ if_some with_exported_heading types.old
        (option_map (λ e. (e.0.now, e.1.now)) entry.entry)) }
{
    match entry {
        None => Ok(()),
        Some((_, meaning)) => match meaning {
            Meaning::Procedure(procedure) => types.push(procedure.heading),
            Meaning::Constant(_)
            | Meaning::Type(_, _)
            | Meaning::Variable(_)
            | Meaning::Local(_)
            | Meaning::Field(_)
            | Meaning::LocalProcedure(_)
            | Meaning::Ahead
            | Meaning::Standard(_)
            | Meaning::Module(_) => Ok(()),
        },
    }
}

fn exported_headings(
    alloc: Global,
    exported: &Dictionary<Meaning>,
) -> Result<Items<TypeNo>, AllocError>
    ensures { IfOk result (λ types. types ≡ exported_headings exported.now) }
{
    let mut types = Items::new(alloc);
    for place in 0..exported.len() {
        with_heading_if(&mut types, exported.get(place))?;
    }
    Ok(types)
}

// ---- types

fn with_field_if(
    alloc: Global,
    fields: &mut Dictionary<TypeNo>,
    entry: Option<(&[u8], &TypeNo)>,
) -> Result<(), AllocError>
    ensures { OnOk result (fields.new
        ≡ if_some with_field_copy fields.old (option_map (λ e. (e.0.now, e.1.now)) entry.entry)) }
{
    match entry {
        None => Ok(()),
        Some((name, of)) => fields.enter(alloc, name, *of),
    }
}

fn fields_copy(alloc: Global, fields: &Dictionary<TypeNo>) -> Result<Dictionary<TypeNo>, AllocError>
    ensures { IfOk result (λ copy. copy ≡ fields_copy fields.now) }
{
    let mut copy = Dictionary::new(alloc);
    for place in 0..fields.len() {
        with_field_if(alloc, &mut copy, fields.get(place))?;
    }
    Ok(copy)
}

fn shape_copy(alloc: Global, shape: &Shape) -> Result<Shape, AllocError>
    ensures { IfOk result (λ copy. copy ≡ shape_copy shape.now) }
{
    match shape {
        Shape::Record(fields) => Ok(Shape::Record(fields_copy(alloc, fields)?)),
        Shape::Scalar(scalar) => Ok(Shape::Scalar(*scalar)),
        Shape::Set => Ok(Shape::Set),
        Shape::Array(index, element) => Ok(Shape::Array(*index, *element)),
        Shape::Procedure(signature) => Ok(Shape::Procedure(Signature {
            formals: Items::from_slice(alloc, signature.formals.as_slice())?,
            result: signature.result,
        })),
        Shape::Open(element) => Ok(Shape::Open(*element)),
    }
}

fn all_copied(alloc: Global, list: &[Made]) -> Result<Items<Made>, AllocError>
    ensures { IfOk result (λ copies. copies ≡ map made_copy list.now) }
{
    let mut copies = Items::new(alloc);
    for made in list {
        copies.push(Made {
            shape: shape_copy(alloc, &made.shape)?,
            cells: made.cells,
        })?;
    }
    Ok(copies)
}

/// Copies of the types that a module makes, of those that are met.
fn types_made_in(
    alloc: Global,
    home: u32,
    reached: &[ModuleTypes],
) -> Result<Items<Made>, AllocError>
    ensures { IfOk result (λ made. made ≡ map made_copy (types_made_in home reached.now)) }
{
    match reached {
        [] => Ok(Items::new(alloc)),
        [types, rest @ ..] => {
            if types.number == home {
                return all_copied(alloc, types.made.get().as_slice());
            }
            types_made_in(alloc, home, rest)
        }
    }
}

// ---- the scope

/// What is known where an implementation module begins, from the table of its definition and from the tables of its
/// imports: all that the definition declares, and nothing that it imports. The only error is that memory ran out.
pub fn implementation_scope(
    alloc: Global,
    own: &Table,
    tables: Items<Shared<Table>>,
) -> Result<Scope<Breach>, AllocError>
    ensures { IfOk result (λ scope. scope ≡ implementation_scope own.now tables) }
{
    let mut scope = first_scope(alloc, own.number, tables)?;
    scope.types.own = types_made_in(alloc, own.number, own.reached.as_slice())?;
    with_table(&mut scope.types.others, own.reached.as_slice())?;
    scope.variables = exported_variables(alloc, &own.exported)?;
    scope.procedures = exported_headings(alloc, &own.exported)?;
    scope.own = own_names(alloc, &own.exported)?;
    Ok(scope)
}
