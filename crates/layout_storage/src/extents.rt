//! The storage of the types that a module knows.

ghost use Rattle.std.specs.Prelude.{◌≡◌, ◌∷◌, [], ℕ, true, nat_eq, OnOk};
ghost use Rattle.std.specs.Option.{option_copied};
ghost use Rattle.std.specs.Map.{lookup};
ghost use Rattle.indexmap.specs.IndexMap.{insert_entry};
ghost use Rattle.typed_tree.specs.Known.{scalar_at};
ghost use Rattle.layout_storage.specs.declared.extent.Extent.TheVariants.{Cell};
ghost use Rattle.layout_storage.specs.Capped.{cap_size};
ghost use Rattle.layout_storage.specs.Types.{Ty, component};
ghost use Rattle.layout_storage.specs.Fitting.{types_fit};
ghost use Rattle.layout_storage.specs.Sizes.{size, offset};
ghost use Rattle.layout_storage.specs.Shapes.{tree};
ghost use Rattle.layout_storage.specs.Extents.{scalar_extent, in_module, or_nothing, extent_in, size_in, element_in, field_in, kind_in, kind_of_tree, element_tree, is_there, AreExtents};

use crate::extent::{Extent, element_in, field_in, kind_in, size_in};
use crate::kind::{Kind, bytes_of, kind_of};
use indexmap::IndexMap;
use std::alloc::{AllocError, Global};
use std::marker::Model;
use tree_parts::Items;
use typed_tree::{Home, Scalar, TypeNo, Types, scalar_of};

/// What is kept of the types of modules, by the modules' numbers and then by the numbers of the types. A type is found
/// by hash and by index.
#[derive(Drop)]
pub struct Extents {
    modules: IndexMap<u32, Items<Extent>>,
}

impl Model for Extents {
    ghost use Rattle.std.specs.Prelude.{ℕ, List};
    ghost use Rattle.layout_storage.specs.declared.extent.Extent.{Extent};

    ghost Value = { List (ℕ × List Extent) };

    ghost view = { λ r. r.modules.entries };
}

impl Extents {
    /// No modules.
    pub fn new(alloc: Global) -> Extents
        ensures { result ≡ [] }
    {
        Extents {
            modules: IndexMap::new(alloc),
        }
    }

    /// Whether a module is there.
    pub fn has(&self, home: u32) -> bool
        ensures { result ≡ is_there (lookup (nat_eq home) self.now) }
    {
        self.modules.get(&home).is_some()
    }

    /// What is kept of the type of this number of this module.
    pub fn find(&self, home: u32, number: usize) -> Option<&Extent>
        ensures { option_copied result ≡ in_module (lookup (nat_eq home) self.now) number }
    {
        match self.modules.get(&home) {
            None => None,
            Some(extents) => extents.get(number),
        }
    }

    /// Enters a module: a new one at the end. The only error is that memory ran out.
    pub fn enter(&mut self, home: u32, extents: Items<Extent>) -> Result<(), AllocError>
        ensures { OnOk result (self.new ≡ insert_entry nat_eq self.old home extents) }
    {
        self.modules.insert(home, extents)?;
        Ok(())
    }
}

/// What a predeclared type is as a scalar.
pub fn scalar_extent(t: TypeNo, scalar: Option<Scalar>) -> Kind
    ensures { Cell result ≡ scalar_extent t scalar }
{
    match scalar {
        None => Kind::Natural(4_294_967_295),
        Some(scalar) => kind_of(t, scalar),
    }
}

/// The size of a type that was looked up. One that is not there has no bytes.
pub fn size_or(found: Option<&Extent>) -> u32
    ensures { result ≡ size_in (or_nothing (option_copied found.entry)) }
{
    match found {
        None => 0,
        Some(extent) => size_in(extent),
    }
}

fn size_at(types: &Types, extents: &Extents, t: TypeNo) -> u32
    ensures { result ≡ size_in (extent_in extents.now t) }
{
    match t.home {
        Home::Predeclared => bytes_of(scalar_extent(t, scalar_of(types, t))),
        Home::Module(home) => size_or(extents.find(home, t.number)),
    }
}

fn element_at(extents: &Extents, t: TypeNo) -> u32
    ensures { result ≡ element_in (extent_in extents.now t) }
{
    match t.home {
        Home::Predeclared => 0,
        Home::Module(home) => match extents.find(home, t.number) {
            None => 0,
            Some(extent) => element_in(extent),
        },
    }
}

fn field_at(extents: &Extents, t: TypeNo, number: usize) -> u32
    ensures { result ≡ field_in (extent_in extents.now t) number }
{
    match t.home {
        Home::Predeclared => 0,
        Home::Module(home) => match extents.find(home, t.number) {
            None => 0,
            Some(extent) => field_in(extent, number),
        },
    }
}

fn kind_at(types: &Types, extents: &Extents, t: TypeNo) -> Option<Kind>
    ensures { result ≡ kind_in (extent_in extents.now t) }
{
    match t.home {
        Home::Predeclared => Some(scalar_extent(t, scalar_of(types, t))),
        Home::Module(home) => match extents.find(home, t.number) {
            None => None,
            Some(extent) => kind_in(extent),
        },
    }
}

/// The size of a type in bytes.
pub fn size_of(types: &Types, extents: &Extents, t: TypeNo) -> u32
    requires { AreExtents types.now extents.now }
    ensures capped { result ≡ cap_size (size (tree types.now t)) }
    ensures exact { types_fit types.now ≡ true → result ≡ size (tree types.now t) }
{
    size_at(types, extents, t)
}

/// The size of an element of an array type in bytes, and of another type 0.
pub fn element_of(types: &Types, extents: &Extents, t: TypeNo) -> u32
    requires { AreExtents types.now extents.now }
    ensures capped { result ≡ cap_size (size (element_tree (tree types.now t))) }
    ensures exact { types_fit types.now ≡ true → (k : ℕ) (u : Ty)
        → component (tree types.now t) (k ∷ []) ≡ Some u
        → result ≡ size (element_tree (tree types.now t)) }
{
    element_at(extents, t)
}

/// The offset of a component of a type, by its number from 0.
pub fn field_offset(types: &Types, extents: &Extents, t: TypeNo, number: usize) -> u32
    requires { AreExtents types.now extents.now }
    ensures capped { result ≡ cap_size (offset (tree types.now t) (number ∷ [])) }
    ensures exact { types_fit types.now ≡ true → (u : Ty)
        → component (tree types.now t) (number ∷ []) ≡ Some u
        → result ≡ offset (tree types.now t) (number ∷ []) }
{
    field_at(extents, t, number)
}

/// What a type is as a scalar, if it is one.
pub fn scalar_in(types: &Types, extents: &Extents, t: TypeNo) -> Option<Kind>
    requires { AreExtents types.now extents.now }
    ensures { result ≡ kind_of_tree (tree types.now t) }
{
    kind_at(types, extents, t)
}
