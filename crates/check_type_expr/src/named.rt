//! Names of types.

ghost use Rattle.std.specs.Prelude.{◌≡◌, IfOk};
ghost use Rattle.check_scope.specs.Elaborated.{least, ◌▷◌};
ghost use Rattle.check_type_expr.specs.Named.{first_of, type_meant, of_module, named_type};

use check_const::exported_meaning;
use check_scope::{Elaborated, Scope, looked_up, of_sort, report};
use m2_rule::{Breach, Rule};
use m2_tree::{Pos, Qualified};
use std::alloc::AllocError;
use typed_tree::{Meaning, TypeNo};

/// The place of a name's first token.
pub fn first_of(q: &Qualified) -> Pos
    ensures { result ≡ first_of q.now }
{
    match &q.module {
        None => q.name.pos,
        Some(name) => name.pos,
    }
}

fn type_by(at: Pos, meaning: Elaborated<Meaning>) -> Elaborated<TypeNo>
    ensures { result ≡ meaning ▷ type_meant least at }
{
    match meaning {
        Err(breach) => Err(breach),
        Ok(meaning) => match meaning {
            Meaning::Type(t, _) => Ok(t),
            Meaning::Constant(_)
            | Meaning::Variable(_)
            | Meaning::Local(_)
            | Meaning::Field(_)
            | Meaning::Procedure(_)
            | Meaning::LocalProcedure(_)
            | Meaning::Ahead
            | Meaning::Standard(_)
            | Meaning::Module(_) => report(at, Rule::NoType),
        },
    }
}

/// The type of this name.
pub fn named_type(scope: &Scope<Breach>, q: &Qualified) -> Result<Elaborated<TypeNo>, AllocError>
    ensures { IfOk result (λ t. t ≡ named_type least scope.now q.now) }
{
    match &q.module {
        None => Ok(type_by(
            q.name.pos,
            of_sort(q.name.pos, Rule::NoType, looked_up(scope, &q.name)?),
        )),
        Some(home) => match of_sort(home.pos, Rule::NoType, looked_up(scope, home)?) {
            Err(breach) => Ok(Err(breach)),
            Ok(meaning) => match meaning {
                Meaning::Module(place) => {
                    let exported = exported_meaning(scope, place, &q.name)?;
                    Ok(type_by(home.pos, exported))
                }
                Meaning::Type(_, _)
                | Meaning::Constant(_)
                | Meaning::Variable(_)
                | Meaning::Local(_)
                | Meaning::Field(_)
                | Meaning::Procedure(_)
                | Meaning::LocalProcedure(_)
                | Meaning::Ahead
                | Meaning::Standard(_) => Ok(report(home.pos, Rule::NoType)),
            },
        },
    }
}
