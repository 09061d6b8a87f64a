//! How the storage of all types is found: one pass over the types of the modules in their order. A type names only types
//! that stand before it, so each is found from what is kept of those.

ghost use Rattle.std.specs.Prelude.{◌≡◌, ◌∷◌, [], IfOk, OnOk};
ghost use Rattle.std.specs.Option.{option_map};
ghost use Rattle.std.specs.List.{fold};
ghost use Rattle.layout_storage.specs.Steps.{if_some};
ghost use Rattle.layout_storage.specs.Extents.{begin_row, with_part, extent_in, AreExtents};
ghost use Rattle.layout_storage.specs.Making.{part_size, with_field, shape_extent, with_type, all_made, add_module, with_module, known_extents};

use crate::capped::product;
use crate::extent::Extent;
use crate::extents::{Extents, scalar_extent, size_or};
use crate::kind::{Kind, bytes_of, elements_of, kind_of};
use crate::row::{Row, begin_row, with_part};
use std::alloc::{AllocError, Global};
use tree_parts::{Items, Shared};
use typed_tree::{Dictionary, Home, Made, Shape, TypeNo, Types, scalar_of};

/// The modules before, the number of the module that is at work, and what is kept of its types so far.
#[derive(Drop)]
pub struct Making {
    pub modules: Extents,
    pub home: u32,
    pub own: Items<Extent>,
}

/// The size of a type that stands before.
fn part_size(types: &Types, making: &Making, t: TypeNo) -> u32
    ensures { result ≡ part_size making.now t }
{
    match t.home {
        Home::Predeclared => bytes_of(scalar_extent(t, scalar_of(types, t))),
        Home::Module(home) if home == making.home => size_or(making.own.get(t.number)),
        Home::Module(home) => size_or(making.modules.find(home, t.number)),
    }
}

fn with_field(
    types: &Types,
    making: &Making,
    row: Row,
    field: Option<(&[u8], &TypeNo)>,
) -> Result<Row, AllocError>
    ensures { let entry = option_map (λ e. (e.0.now, e.1.now)) field.entry in
        IfOk result (λ r. r ≡ if_some (with_field making.now) row entry) }
{
    match field {
        None => Ok(row),
        Some((_, t)) => with_part(row, part_size(types, making, *t)),
    }
}

fn record_row(
    alloc: Global,
    types: &Types,
    making: &Making,
    fields: &Dictionary<TypeNo>,
) -> Result<Row, AllocError>
    ensures { IfOk result (λ r. r ≡ fold (with_field making.now) (begin_row 0) fields.now) }
{
    let mut row = begin_row(alloc, 0);
    for number in 0..fields.len() {
        row = with_field(types, making, row, fields.get(number))?;
    }
    Ok(row)
}

fn shape_extent(
    alloc: Global,
    types: &Types,
    making: &Making,
    t: TypeNo,
    shape: &Shape,
) -> Result<Extent, AllocError>
    ensures { IfOk result (λ x. x ≡ shape_extent types.now making.now t shape.now) }
{
    match shape {
        Shape::Scalar(scalar) => Ok(Extent::Cell(kind_of(t, *scalar))),
        Shape::Set => Ok(Extent::Cell(Kind::Natural(4_294_967_295))),
        Shape::Array(index, element) => {
            let size = part_size(types, making, *element);
            let count = elements_of(scalar_of(types, *index));
            Ok(Extent::Array(size, product(count, size)))
        }
        Shape::Record(fields) => Ok(Extent::Row(record_row(alloc, types, making, fields)?)),
        Shape::Procedure(_) => Ok(Extent::Cell(Kind::Natural(4_294_967_295))),
        Shape::Open(_) => Ok(Extent::Row(begin_row(alloc, 0))),
    }
}

fn with_type(
    alloc: Global,
    types: &Types,
    making: &mut Making,
    made: &Made,
) -> Result<(), AllocError>
    ensures { OnOk result (making.new ≡ with_type types.now making.old made.now) }
{
    let t = TypeNo {
        home: Home::Module(making.home),
        number: making.own.len(),
    };
    let extent = shape_extent(alloc, types, making, t, &made.shape)?;
    making.own.push(extent)
}

/// Enters the module, unless one of its number is there.
fn add_module(making: Making) -> Result<Extents, AllocError>
    ensures { IfOk result (λ x. x ≡ add_module making) }
{
    let Making {
        mut modules,
        home,
        own,
    } = making;
    if modules.has(home) {
        return Ok(modules);
    }
    modules.enter(home, own)?;
    Ok(modules)
}

/// What is kept of these types of a module.
fn all_made(
    alloc: Global,
    types: &Types,
    modules: Extents,
    home: u32,
    all: &[Made],
) -> Result<Making, AllocError>
    ensures { IfOk result (λ x. x ≡ all_made types.now modules home all.now) }
{
    let mut making = Making {
        modules,
        home,
        own: Items::new(alloc),
    };
    for made in all {
        with_type(alloc, types, &mut making, made)?;
    }
    Ok(making)
}

fn with_module(
    alloc: Global,
    types: &Types,
    modules: Extents,
    entry: Option<(&u32, &Shared<Items<Made>>)>,
) -> Result<Extents, AllocError>
    ensures { let given = option_map (λ e. (e.0.now, e.1.now)) entry.entry in
        IfOk result (λ x. x ≡ if_some (with_module types.now) modules given) }
{
    match entry {
        None => Ok(modules),
        Some((home, made)) => {
            add_module(all_made(alloc, types, modules, *home, made.get().as_slice())?)
        }
    }
}

fn others_of(alloc: Global, types: &Types) -> Result<Extents, AllocError>
    ensures { IfOk result (λ x. x ≡ fold (with_module types.now) [] types.now.others) }
{
    let mut modules = Extents::new(alloc);
    for place in 0..types.others.len() {
        modules = with_module(alloc, types, modules, types.others.get(place))?;
    }
    Ok(modules)
}

/// The module itself is entered also if one of its number is there: an implementation has the types of its definition
/// and more.
fn known_extents(alloc: Global, types: &Types) -> Result<Extents, AllocError>
    ensures { IfOk result (λ x. x ≡ known_extents types.now) }
{
    let others = others_of(alloc, types)?;
    let Making {
        mut modules,
        home,
        own,
    } = all_made(alloc, types, others, types.home, types.own.as_slice())?;
    modules.enter(home, own)?;
    Ok(modules)
}

/// The storage of all types that a module knows. The only error is that memory ran out.
pub fn extents_of(alloc: Global, types: &Types) -> Result<Extents, AllocError>
    ensures { IfOk result (λ x. AreExtents types.now x) }
{
    known_extents(alloc, types)
}
