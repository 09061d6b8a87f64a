//! The names around every module, and the module Console.

ghost use Rattle.std.specs.Prelude.{◌≡◌, [], IfOk, OnOk};
ghost use Rattle.std.specs.List.{fold};
ghost use Rattle.check_definition.specs.Predeclared.{predeclared_as, truth, with_types, with_truth, with_functions, with_bounds, with_procedures, predeclared_names, console, with_reached, first_scope};

use check_scope::{Block, Known, Origin, Scope};
use m2_rule::Breach;
use m2_tree::Name;
use std::alloc::{AllocError, Global};
use tree_parts::{Items, Shared};
use typed_tree::{
    BITSET, BOOLEAN, CARDINAL, CHAR, Dictionary, INTEGER, Meaning, ModuleTypes, Reached,
    ScalarValue, Standard, Table, Types, Value,
};

fn predeclare(
    alloc: Global,
    names: &mut Dictionary<Known<Breach>>,
    name: &[u8],
    means: Meaning,
) -> Result<(), AllocError>
    ensures { OnOk result (names.new ≡ predeclared_as name.now means names.old) }
{
    names.enter(alloc, name, Known::Declared(Origin::Here, Ok(means)))
}

fn predeclare_types(alloc: Global, names: &mut Dictionary<Known<Breach>>) -> Result<(), AllocError>
    ensures { OnOk result (names.new ≡ with_types names.old) }
{
    predeclare(
        alloc,
        names,
        b"INTEGER".as_slice(),
        Meaning::Type(INTEGER, 1),
    )?;
    predeclare(
        alloc,
        names,
        b"CARDINAL".as_slice(),
        Meaning::Type(CARDINAL, 1),
    )?;
    predeclare(
        alloc,
        names,
        b"BOOLEAN".as_slice(),
        Meaning::Type(BOOLEAN, 1),
    )?;
    predeclare(alloc, names, b"CHAR".as_slice(), Meaning::Type(CHAR, 1))?;
    predeclare(alloc, names, b"BITSET".as_slice(), Meaning::Type(BITSET, 1))
}

fn truth(number: i64) -> Meaning
    ensures { result ≡ truth number }
{
    Meaning::Constant(Value::Scalar(ScalarValue {
        of: BOOLEAN,
        base: BOOLEAN,
        number,
    }))
}

fn predeclare_truth(alloc: Global, names: &mut Dictionary<Known<Breach>>) -> Result<(), AllocError>
    ensures { OnOk result (names.new ≡ with_truth names.old) }
{
    predeclare(alloc, names, b"FALSE".as_slice(), truth(0))?;
    predeclare(alloc, names, b"TRUE".as_slice(), truth(1))
}

fn predeclare_functions(
    alloc: Global,
    names: &mut Dictionary<Known<Breach>>,
) -> Result<(), AllocError>
    ensures { OnOk result (names.new ≡ with_functions names.old) }
{
    predeclare(
        alloc,
        names,
        b"ABS".as_slice(),
        Meaning::Standard(Standard::Abs),
    )?;
    predeclare(
        alloc,
        names,
        b"CAP".as_slice(),
        Meaning::Standard(Standard::Cap),
    )?;
    predeclare(
        alloc,
        names,
        b"CHR".as_slice(),
        Meaning::Standard(Standard::Chr),
    )?;
    predeclare(
        alloc,
        names,
        b"HIGH".as_slice(),
        Meaning::Standard(Standard::High),
    )
}

fn predeclare_bounds(alloc: Global, names: &mut Dictionary<Known<Breach>>) -> Result<(), AllocError>
    ensures { OnOk result (names.new ≡ with_bounds names.old) }
{
    predeclare(
        alloc,
        names,
        b"MAX".as_slice(),
        Meaning::Standard(Standard::Max),
    )?;
    predeclare(
        alloc,
        names,
        b"MIN".as_slice(),
        Meaning::Standard(Standard::Min),
    )?;
    predeclare(
        alloc,
        names,
        b"ODD".as_slice(),
        Meaning::Standard(Standard::Odd),
    )?;
    predeclare(
        alloc,
        names,
        b"ORD".as_slice(),
        Meaning::Standard(Standard::Ord),
    )?;
    predeclare(
        alloc,
        names,
        b"VAL".as_slice(),
        Meaning::Standard(Standard::Val),
    )
}

fn predeclare_procedures(
    alloc: Global,
    names: &mut Dictionary<Known<Breach>>,
) -> Result<(), AllocError>
    ensures { OnOk result (names.new ≡ with_procedures names.old) }
{
    predeclare(
        alloc,
        names,
        b"INC".as_slice(),
        Meaning::Standard(Standard::Inc),
    )?;
    predeclare(
        alloc,
        names,
        b"DEC".as_slice(),
        Meaning::Standard(Standard::Dec),
    )?;
    predeclare(
        alloc,
        names,
        b"INCL".as_slice(),
        Meaning::Standard(Standard::Incl),
    )?;
    predeclare(
        alloc,
        names,
        b"EXCL".as_slice(),
        Meaning::Standard(Standard::Excl),
    )?;
    predeclare(
        alloc,
        names,
        b"HALT".as_slice(),
        Meaning::Standard(Standard::Halt),
    )
}

/// The predeclared names.
#[tactic(auto, unfolding(crate::specs::Predeclared::predeclared_names))]
fn predeclared_names(alloc: Global) -> Result<Dictionary<Known<Breach>>, AllocError>
    ensures { IfOk result (λ names. names ≡ predeclared_names) }
{
    let mut names = Dictionary::new(alloc);
    predeclare_types(alloc, &mut names)?;
    predeclare_truth(alloc, &mut names)?;
    predeclare_functions(alloc, &mut names)?;
    predeclare_bounds(alloc, &mut names)?;
    predeclare_procedures(alloc, &mut names)?;
    Ok(names)
}

/// The table of the module Console.
#[tactic(auto, unfolding(crate::specs::Predeclared::console))]
pub fn console(alloc: Global) -> Result<Table, AllocError>
    ensures { IfOk result (λ table. table ≡ console) }
{
    let mut exported = Dictionary::new(alloc);
    exported.enter(alloc, b"Put".as_slice(), Meaning::Standard(Standard::Put))?;
    Ok(Table {
        number: 4_294_967_295,
        name: Name::new(alloc, b"Console".as_slice())?,
        imports: Dictionary::new(alloc),
        exported,
        reached: Items::new(alloc),
    })
}

/// Enters the types of each module that is not there.
pub fn with_table(others: &mut Reached, list: &[ModuleTypes]) -> Result<(), AllocError>
    ensures { OnOk result (others.new ≡ fold with_reached others.old list.now) }
{
    for types in list {
        if others.find(types.number).is_none() {
            others.enter(types.number, types.made.share()?)?;
        }
    }
    Ok(())
}

/// What is known where a module begins.
pub fn first_scope(
    alloc: Global,
    home: u32,
    tables: Items<Shared<Table>>,
) -> Result<Scope<Breach>, AllocError>
    ensures { IfOk result (λ s. s ≡ first_scope home tables) }
{
    let mut others = Reached::new(alloc);
    for table in tables.as_slice() {
        with_table(&mut others, table.get().reached.as_slice())?;
    }
    let names = predeclared_names(alloc)?;
    let mut outer = Items::new(alloc);
    let seen = names.len();
    outer.push(Block { names, seen })?;
    Ok(Scope {
        tables,
        types: Types {
            home,
            own: Items::new(alloc),
            others,
        },
        variables: Items::new(alloc),
        procedures: Items::new(alloc),
        level: 0,
        own: Dictionary::new(alloc),
        outer,
        withs: Items::new(alloc),
    })
}
