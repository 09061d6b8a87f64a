//! From a block into a procedure.

ghost use Rattle.std.specs.Prelude.{◌≡◌, ◌∷◌, [], IfOk, OnOk};
ghost use Rattle.check_scope.specs.Elaborated.{least};
ghost use Rattle.check_scope.specs.Inwards.{outside};
ghost use Rattle.check_block.specs.Inner.{formal_kind, formal_meaning, with_formal, with_section, formals_in, entered_in, entered_procedure};

use check_scope::{Elaborated, Known, Origin, Outside, Scope, step_in};
use check_type_expr::{formal_of, result_of};
use m2_rule::Breach;
use m2_tree::{Heading, Ident, Section};
use std::alloc::{AllocError, Global};
use tree_parts::Items;
use typed_tree::{Dictionary, Formal, LocalKind, LocalVariable, Meaning, TypeNo};

/// A procedure that was entered.
#[derive(Drop)]
pub struct Entered {
    pub outside: Outside,
    /// What the procedure gives, if it gives something.
    pub result: Elaborated<Option<TypeNo>>,
}

// ---- formals

fn formal_kind(formal: Formal) -> LocalKind
    ensures { result ≡ formal_kind formal }
{
    if formal.is_open {
        return LocalKind::Open;
    }
    if formal.is_var {
        return LocalKind::Alias;
    }
    LocalKind::Value
}

fn formal_meaning(level: usize, number: usize, formal: Elaborated<Formal>) -> Elaborated<Meaning>
    ensures { result ≡ formal_meaning level number formal }
{
    match formal {
        Err(breach) => Err(breach),
        Ok(formal) => Ok(Meaning::Local(LocalVariable {
            level,
            number,
            kind: formal_kind(formal),
            of: formal.of,
        })),
    }
}

fn with_formal(
    alloc: Global,
    names: &mut Dictionary<Known<Breach>>,
    types: &mut Items<TypeNo>,
    level: usize,
    formal: Elaborated<Formal>,
    name: &Ident,
) -> Result<(), AllocError>
    ensures { OnOk result
        ((names.new, types.new) ≡ with_formal level formal (names.old, types.old) name.now) }
{
    let means = formal_meaning(level, types.len(), formal);
    if names.find(name.name.as_bytes()).is_none() {
        names.enter(
            alloc,
            name.name.as_bytes(),
            Known::Declared(Origin::Here, means),
        )?;
    }
    match formal {
        Err(_) => Ok(()),
        Ok(formal) => types.push(formal.of),
    }
}

fn with_section(
    alloc: Global,
    scope: &Scope<Breach>,
    names: &mut Dictionary<Known<Breach>>,
    types: &mut Items<TypeNo>,
    section: &Section,
) -> Result<(), AllocError>
    ensures { OnOk result
        ((names.new, types.new) ≡ with_section least scope.now (names.old, types.old) section.now) }
{
    let formal = formal_of(scope, section.is_var, &section.of)?;
    for name in section.names.as_slice() {
        with_formal(alloc, names, types, scope.level, formal, name)?;
    }
    Ok(())
}

fn enter_in(
    alloc: Global,
    scope: &mut Scope<Breach>,
    heading: &Heading,
) -> Result<Elaborated<Option<TypeNo>>, AllocError>
    ensures { IfOk result (λ t. (scope.new, t) ≡ entered_in least scope.old heading.now) }
{
    let result = result_of(scope, &heading.result)?;
    let mut names = Dictionary::new(alloc);
    let mut types = Items::new(alloc);
    for section in heading.formals.as_slice() {
        with_section(alloc, scope, &mut names, &mut types, section)?;
    }
    scope.own = names;
    scope.variables = types;
    Ok(result)
}

/// Enters a procedure of a block. `seen` names of the block stand before it. The types in the heading are looked up
/// outside of it, and its formals are the first names in it. What is reported of the heading is reported where it is
/// declared.
pub fn enter(
    alloc: Global,
    scope: &mut Scope<Breach>,
    seen: usize,
    heading: &Heading,
) -> Result<Entered, AllocError>
    ensures within { IfOk result (λ e.
        (scope.new, e.result) ≡ entered_procedure least scope.old seen heading.now) }
    ensures around { IfOk result (λ e. e.outside ≡ outside scope.old) }
{
    let outside = step_in(alloc, scope, seen)?;
    let result = enter_in(alloc, scope, heading)?;
    Ok(Entered { outside, result })
}
