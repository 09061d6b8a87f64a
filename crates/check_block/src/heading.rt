//! Headings of procedures in blocks.

ghost use Rattle.std.specs.Prelude.{◌≡◌, Ok, IfOk, OnOk};
ghost use Rattle.check_scope.specs.Elaborated.{least, ◌▷◌};
ghost use Rattle.check_block.specs.Headings.{standing_elaborated, standing_known, set_heading, new_procedure, reported_of_other, with_awaited, headed_as, with_heading};

use crate::agreeing::{agree, signature_of};
use check_definition::{procedure_meaning, with_procedure_type};
use check_scope::{Elaborated, Known, Origin, Scope, Sought, beside, heading_means, report};
use check_type_expr::{heading_of, names_of, nothing_of, with_made};
use m2_rule::{Breach, Rule};
use m2_tree::{Heading, Pos};
use std::alloc::{AllocError, Global};
use typed_tree::{Made, Meaning, NestedProcedure, Procedure, TypeNo, Types, made_of};

/// What stands under the name of a heading.
#[derive(Clone, Copy, PartialEq, Eq)]
pub enum Standing {
    /// Nothing yet.
    Free,
    /// A procedure of the module's definition, which awaits its heading.
    Awaited(Procedure),
    /// Another declaration.
    Taken,
}

fn standing_elaborated(means: &Elaborated<Meaning>) -> Standing
    ensures { result ≡ standing_elaborated means.now }
{
    match means {
        Err(_) => Standing::Taken,
        Ok(meaning) => match meaning {
            Meaning::Procedure(procedure) => Standing::Awaited(*procedure),
            Meaning::Constant(_)
            | Meaning::Type(_, _)
            | Meaning::Variable(_)
            | Meaning::Local(_)
            | Meaning::Field(_)
            | Meaning::LocalProcedure(_)
            | Meaning::Ahead
            | Meaning::Standard(_)
            | Meaning::Module(_) => Standing::Taken,
        },
    }
}

/// What stands under a name of which this is known.
pub fn standing_known(known: &Known<Breach>) -> Standing
    ensures { result ≡ standing_known known.now }
{
    match known {
        Known::Later => Standing::Free,
        Known::Ahead => Standing::Free,
        Known::Begun => Standing::Taken,
        Known::Headed(_) => Standing::Taken,
        Known::Declared(origin, means) => match origin {
            Origin::Here => standing_elaborated(means),
            Origin::Module(_) => Standing::Taken,
            Origin::Export(_) => Standing::Taken,
        },
    }
}

// ---- procedures of the block itself

fn head(
    alloc: Global,
    scope: &mut Scope<Breach>,
    name: &[u8],
    means: Sought<Meaning>,
) -> Result<(), AllocError>
    ensures { OnOk result (scope.new ≡ set_heading name.now means scope.old) }
{
    scope.own.enter(alloc, name, Known::Headed(means))
}

fn new_procedure(
    alloc: Global,
    scope: &mut Scope<Breach>,
    name: &[u8],
    number: usize,
    t: Elaborated<TypeNo>,
) -> Result<(), AllocError>
    ensures { OnOk result (scope.new ≡ new_procedure scope.old name.now number t) }
{
    if scope.level == 0 {
        let means = procedure_meaning(scope.types.home, scope.procedures.len(), t);
        with_procedure_type(scope, t)?;
        return head(alloc, scope, name, heading_means(false, means));
    }
    let means = match t {
        Err(breach) => Err(breach),
        Ok(heading) => Ok(Meaning::LocalProcedure(NestedProcedure {
            level: scope.level,
            number,
            heading,
        })),
    };
    head(alloc, scope, name, heading_means(true, means))
}

// ---- procedures of the module's definition

fn reported_of_heading(
    types: &Types,
    at: Pos,
    procedure: Procedure,
    made: &Elaborated<Made>,
) -> Elaborated<()>
    ensures { result ≡ made.now ▷ reported_of_other least types.now at procedure }
{
    match made {
        Err(breach) => Err(*breach),
        Ok(made) => {
            let awaited = made_of(types, procedure.heading);
            if !agree(signature_of(Some(made)), signature_of(awaited)) {
                return report(at, Rule::OtherHeading);
            }
            Ok(())
        }
    }
}

fn with_awaited(
    alloc: Global,
    scope: &mut Scope<Breach>,
    heading: &Heading,
    procedure: Procedure,
    made: &Elaborated<Made>,
) -> Result<Elaborated<()>, AllocError>
    ensures { IfOk result (λ j.
        (scope.new, j) ≡ with_awaited least scope.old heading.now procedure made.now) }
{
    let elaborated = reported_of_heading(&scope.types, heading.name.pos, procedure, made);
    let means = Ok(Meaning::Procedure(procedure));
    head(alloc, scope, heading.name.name.as_bytes(), means)?;
    Ok(elaborated)
}

// ---- all of them

fn headed_as(
    alloc: Global,
    scope: &mut Scope<Breach>,
    heading: &Heading,
    number: usize,
    made: Elaborated<Made>,
    standing: Standing,
) -> Result<Elaborated<()>, AllocError>
    ensures { IfOk result (λ j.
        (scope.new, j) ≡ headed_as least scope.old heading.now number made standing) }
{
    match standing {
        Standing::Free => {
            let t = with_made(scope, made)?;
            new_procedure(alloc, scope, heading.name.name.as_bytes(), number, t)?;
            Ok(nothing_of(t))
        }
        Standing::Awaited(procedure) => with_awaited(alloc, scope, heading, procedure, &made),
        Standing::Taken => {
            let taken = report(heading.name.pos, Rule::DeclaredTwice);
            match &made {
                Err(breach) => Ok(beside(Err(*breach), taken)),
                Ok(_) => Ok(taken),
            }
        }
    }
}

/// Declares the procedure of a heading. The number is the number of a procedure in a procedure. A name that is declared
/// is 31. A procedure of the module's definition has its heading there; one that differs is 50.
pub fn with_heading(
    alloc: Global,
    scope: &mut Scope<Breach>,
    number: usize,
    heading: &Heading,
) -> Result<Elaborated<()>, AllocError>
    ensures { IfOk result (λ j. (scope.new, j) ≡ with_heading least scope.old number heading.now) }
{
    let names = names_of(alloc, heading)?;
    let made = heading_of(alloc, scope, heading)?;
    let standing = match scope.own.find(heading.name.name.as_bytes()) {
        None => Standing::Free,
        Some(known) => standing_known(known),
    };
    let one = headed_as(alloc, scope, heading, number, made, standing)?;
    Ok(beside(names, one))
}
