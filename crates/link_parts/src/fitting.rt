//! Which modules fit together.

ghost use Rattle.std.specs.Prelude.{◌≡◌, Ok, Some, OnOk, IfErr};
ghost use Rattle.typed_tree.specs.Names.{enter_name};
ghost use Rattle.link_parts.specs.Fitting.{use_of, uses_of, uses_from, Agree, AreOneProgram, Fit, HasFault};
ghost use Rattle.link_parts.specs.Held.{Known, seen_of, known_of, held_against, with_use, with_uses, Tells};

use crate::fault::LinkFault;
use crate::part::{Interface, Part};
use std::alloc::Global;
use typed_tree::Dictionary;

/// The first use of a definition.
#[derive(Drop)]
struct Seen {
    /// The number of the module that was compiled with it.
    by: usize,
    /// The checksum of the definition.
    sum: String,
}

/// Notes the first use of a definition.
fn enter_first(
    alloc: Global,
    number: usize,
    interface: &Interface,
    known: &mut Dictionary<Seen>,
) -> Result<(), LinkFault>
    ensures { let u = use_of number interface.now in
        Tells result (known_of known.new)
        (Ok (enter_name u.name (u.by, u.sum) (known_of known.old))) }
{
    let sum = String::from_str(alloc, interface.sum.as_str())?;
    let seen = Seen { by: number, sum };
    known.enter(alloc, interface.name.as_bytes(), seen)?;
    Ok(())
}

/// Holds a use of a definition against the first of its name.
fn hold_against(
    alloc: Global,
    number: usize,
    interface: &Interface,
    first: &Seen,
) -> Result<(), LinkFault>
    ensures { (known : Known) → Tells result known
        (held_against (use_of number interface.now) known (Some (seen_of first.now))) }
{
    if first.sum.as_bytes() == interface.sum.as_bytes() {
        return Ok(());
    }
    let name = String::from_str(alloc, interface.name.as_str())?;
    Err(LinkFault::Interfaces(first.by, number, name))
}

/// Whether a definition is the one that was used first under its name. It is noted if none was.
fn add_interface(
    alloc: Global,
    number: usize,
    interface: &Interface,
    known: &mut Dictionary<Seen>,
) -> Result<(), LinkFault>
    ensures { Tells result (known_of known.new)
        (with_use (use_of number interface.now) (known_of known.old)) }
{
    match known.find(interface.name.as_bytes()) {
        None => enter_first(alloc, number, interface, known),
        Some(first) => hold_against(alloc, number, interface, first),
    }
}

/// Whether the definitions of a module are those that were seen before under their names.
fn add_part(
    alloc: Global,
    number: usize,
    part: &Part,
    known: &mut Dictionary<Seen>,
) -> Result<(), LinkFault>
    ensures { Tells result (known_of known.new)
        (with_uses (uses_of number part.now) (known_of known.old)) }
{
    for interface in &part.interfaces {
        add_interface(alloc, number, interface, known)?;
    }
    Ok(())
}

/// Whether modules were compiled with one definition of each module.
fn add_parts(alloc: Global, parts: &[Part], known: &mut Dictionary<Seen>) -> Result<(), LinkFault>
    ensures { Tells result (known_of known.new)
        (with_uses (uses_from 0 parts.now) (known_of known.old)) }
{
    for (number, part) in parts.iter().enumerate() {
        add_part(alloc, number, part, known)?;
    }
    Ok(())
}

/// Whether the first module alone is a program.
fn check_program(parts: &[Part]) -> Result<(), LinkFault>
    ensures fits { OnOk result (AreOneProgram parts.now) }
    ensures fault { IfErr result (λ e. HasFault parts.now e) }
{
    if parts.is_empty() {
        return Err(LinkFault::NoProgram);
    }
    for (number, part) in parts.iter().enumerate() {
        if part.is_program {
            if number > 0 {
                return Err(LinkFault::Program(number));
            }
        } else if number == 0 {
            return Err(LinkFault::NoProgram);
        }
    }
    Ok(())
}

/// Whether modules were compiled with one definition of each module.
fn check_interfaces(alloc: Global, parts: &[Part]) -> Result<(), LinkFault>
    ensures fits { OnOk result (Agree (uses_from 0 parts.now)) }
    ensures fault { IfErr result (λ e. HasFault parts.now e) }
{
    let mut known = Dictionary::new(alloc);
    add_parts(alloc, parts, &mut known)
}

/// Whether modules fit together.
pub fn check_parts(alloc: Global, parts: &[Part]) -> Result<(), LinkFault>
    ensures fits { OnOk result (Fit parts.now) }
    ensures fault { IfErr result (λ e. HasFault parts.now e) }
{
    check_program(parts)?;
    check_interfaces(alloc, parts)
}
