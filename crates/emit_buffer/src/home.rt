//! A module, with what is kept of it.

ghost use Rattle.std.specs.Prelude.{◌≡◌, ◌∷◌, [], true, MatchOption, None, Some, IfOk, OnOk, map, slice_get};
ghost use Rattle.std.specs.Option.{option_copied};
ghost use Rattle.layout_storage.specs.Sizes.{size, offset};
ghost use Rattle.layout_storage.specs.Shapes.{tree};
ghost use Rattle.layout_storage.specs.Extents.{kind_of_tree, element_tree};
ghost use Rattle.layout_storage.specs.Rows.{frame_row};
ghost use Rattle.layout_storage.specs.Layouts.{IsLayout};
ghost use Rattle.def_scheme.specs.Exprs.{import_place, variables_row};
ghost use Rattle.def_scheme.specs.Functions.{routine_of};
ghost use Rattle.def_scheme.specs.Modules.{signatures as signatures_in, numbering_of};
ghost use Rattle.emit_buffer.specs.Cut.{cut};
ghost use Rattle.emit_buffer.specs.Fitting.{sizes_fit};
ghost use Rattle.emit_buffer.specs.Frames.{IsFramed};
ghost use Rattle.emit_buffer.specs.Homes.{start_or, with_place, ArePlaces, row_for};

use crate::frame::Framed;
use emit_tables::{Signatures, is_own};
use indexmap::IndexMap;
use layout_storage::{Kind, Layout, Row, element_of, field_offset, scalar_in, size_of, start_of};
use std::alloc::{AllocError, Global};
use std::marker::Model;
use typed_tree::{Imported, Routine, TypeNo, TypedModule, Types, Variable, Which};

/// A module, where its variables stand, the types of functions that it needs, and by the numbers of modules their places
/// among its imports. Contracts see the module.
#[derive(Drop)]
pub struct Home<'a> {
    module_body: &'a TypedModule,
    layout: &'a Layout,
    signatures: &'a Signatures,
    places: IndexMap<u32, usize>,
}

impl<'a> Model for Home<'a> {
    ghost use Rattle.typed_tree.specs.declared.typed_module.TypedModule.{TypedModule};
    ghost use Rattle.emit_buffer.specs.Homes.{IsHome};
    ghost use Rattle.std.specs.Coded.{codes};
    ghost use Rattle.typed_tree.specs.contracts.typed_module.TypedModule as e;

    ghost Value = { TypedModule };

    ghost coded = { Prim.hlevel (codes, e.the_row.coded) };

    ghost view = { λ h. h.module_body.now };

    ghost invariant = { λ h.
        IsHome h.module_body.now h.layout.now h.signatures.now h.places.entries };
}

/// The procedure of this number, with its frame.
fn framed_by<'a>(
    types: &Types,
    routines: &'a [Routine],
    rows: &'a [Row],
    number: usize,
) -> Option<Framed<'a>>
    requires { rows.now ≡ map (frame_row types.now) routines.now }
    ensures { MatchOption result (slice_get routines.now number ≡ None)
        (λ f. (slice_get routines.now number ≡ Some f.routine.now) × IsFramed types.now f) }
{
    if number < routines.len() {
        return Some(Framed {
            routine: &routines[number],
            row: &rows[number],
        });
    }
    None
}

/// Where a part of a row begins, and 0 if there is no row.
pub fn start_or(row: Option<&Row>, part: usize) -> u32
    ensures { result ≡ start_or (option_copied row.entry) part }
{
    match row {
        None => 0,
        Some(row) => start_of(row, part),
    }
}

/// Gives a module its place among the imports, unless it has one.
fn with_place(
    places: &mut IndexMap<u32, usize>,
    import: &Imported,
    place: usize,
) -> Result<(), AllocError>
    ensures { OnOk result (places.new.entries ≡ with_place places.old.entries import.now place) }
{
    if places.get(&import.number).is_some() {
        return Ok(());
    }
    places.insert(import.number, place)?;
    Ok(())
}

/// The places of modules among the imports.
fn places_of(alloc: Global, imports: &[Imported]) -> Result<IndexMap<u32, usize>, AllocError>
    ensures { IfOk result (λ ps. ArePlaces ps.entries imports.now) }
{
    let mut places = IndexMap::new(alloc);
    for place in 0..imports.len() {
        with_place(&mut places, &imports[place], place)?;
    }
    Ok(places)
}

impl<'a> Home<'a> {
    /// What is kept of a module, with its layout and the types of functions that it needs. The only error is that memory ran
    /// out.
    pub fn new(
        alloc: Global,
        module_body: &'a TypedModule,
        layout: &'a Layout,
        signatures: &'a Signatures,
    ) -> Result<Home<'a>, AllocError>
        requires layout { IsLayout module_body.now layout.now }
        requires signatures { signatures.now ≡ signatures_in module_body.now }
        requires fits { sizes_fit module_body.now.types ≡ true }
        ensures { IfOk result (λ h. h ≡ module_body.now) }
    {
        let places = places_of(alloc, module_body.imports.as_slice())?;
        Ok(Home {
            module_body,
            layout,
            signatures,
            places,
        })
    }

    /// The module.
    pub fn module_body(&self) -> &TypedModule
        ensures { result.now ≡ self.now }
    {
        self.module_body
    }

    /// The types of functions that it needs.
    pub fn signatures(&self) -> &Signatures
        ensures { result.now ≡ signatures_in self.now }
    {
        self.signatures
    }

    /// A procedure of the module, with its frame.
    pub fn frame_of(&self, which: Which) -> Option<Framed<'_>>
        ensures { MatchOption result (routine_of self.now which ≡ None)
            (λ f. (routine_of self.now which ≡ Some f.routine.now) × IsFramed self.now.types f) }
    {
        match which {
            Which::Module(n) => framed_by(
                &self.module_body.types,
                self.module_body.procedures.as_slice(),
                self.layout.procedures.as_slice(),
                n,
            ),
            Which::Local(n) => framed_by(
                &self.module_body.types,
                self.module_body.locals.as_slice(),
                self.layout.locals.as_slice(),
                n,
            ),
        }
    }

    /// The number of the type of functions with this many arguments, and with a result or without.
    pub fn number(&self, arguments: usize, has_result: bool) -> usize
        ensures { result ≡ numbering_of self.now arguments has_result }
    {
        self.signatures().number(arguments, has_result)
    }

    /// The place of a module among the imports.
    pub fn place(&self, home: u32) -> usize
        ensures { result ≡ import_place self.now home }
    {
        match self.places.get(&home) {
            None => 0,
            Some(place) => *place,
        }
    }

    /// What a type is as a scalar, if it is one.
    pub fn kind(&self, t: TypeNo) -> Option<Kind>
        ensures { result ≡ kind_of_tree (tree self.now.types t) }
    {
        scalar_in(&self.module_body.types, &self.layout.extents, t)
    }

    /// The bytes of a variable of a type.
    #[tactic(auto, using(crate::proofs::Uncut::size_is))]
    pub fn size(&self, t: TypeNo) -> u32
        ensures { result ≡ size (tree self.now.types t) }
    {
        size_of(&self.module_body.types, &self.layout.extents, t)
    }

    /// The bytes of an element of an array type.
    #[tactic(auto, using(crate::proofs::Uncut::element_is))]
    pub fn element_size(&self, t: TypeNo) -> u32
        ensures { result ≡ size (element_tree (tree self.now.types t)) }
    {
        element_of(&self.module_body.types, &self.layout.extents, t)
    }

    /// The offset of a component of a type, cut to 32 bits.
    pub fn offset(&self, t: TypeNo, number: usize) -> u32
        ensures { result ≡ cut (offset (tree self.now.types t) (number ∷ [])) }
    {
        field_offset(&self.module_body.types, &self.layout.extents, t, number)
    }

    /// What is kept of the variables of a module.
    fn row(&self, home: u32) -> Option<&Row>
        ensures { option_copied result ≡ row_for self.now home }
    {
        if is_own(self.module_body, home) {
            return Some(&self.layout.variables);
        }
        self.layout.imported.get(self.place(home))
    }

    /// The offset of a variable of a module, cut to 32 bits.
    #[tactic(auto, using(crate::proofs::Offsets::variable_is))]
    pub fn variable_offset(&self, v: Variable) -> u32
        ensures { let row = variables_row self.now v.home in
            result ≡ cut (offset row (v.number ∷ [])) }
    {
        start_or(self.row(v.home), v.number)
    }
}
