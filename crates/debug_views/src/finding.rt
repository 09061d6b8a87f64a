//! What is typed as a variable is found.

use crate::building::constants_before;
use crate::forms::{Elements, Form, Spot};
use crate::views::{Variable, Views, Way, named};
use debug_history::{Frame, State};
use debug_words::{Condition, Path, Relation, Selector, Value};
use std::alloc::{AllocError, Global};
use typed_tree::{BOOLEAN, CARDINAL, Home, TypeNo, are_same, scalar_of};

/// The most procedures that stand around one.
const MOST_LEVELS: usize = 256;

/// The bytes of an address, and of the link to the procedure around.
const ADDRESS: usize = 4;

/// How many bytes HIGH stands behind the address of an open array.
const HIGH: u32 = 4;

/// A variable or a component.
#[derive(Clone, Copy)]
pub enum Found {
    Value(Spot),
    /// An open array: its first element, and HIGH.
    Open(Spot, u32),
}

/// What comes of seeking a variable.
#[derive(Drop)]
pub enum Sought {
    Found(Found),
    /// Why it is not there, in a sentence.
    Missing(String),
}

/// A name as text.
fn word(alloc: Global, name: &[u8]) -> Result<String, AllocError> {
    Ok(String::from_utf8_lossy(alloc, name)?)
}

/// The number of the address at a place of memory.
fn address_at(state: &State, address: u32) -> u32 {
    u32::try_from(state.number(address, ADDRESS)).unwrap_or(u32::MAX)
}

/// A variable of a procedure whose variables stand at this address.
pub fn local(state: &State, module: usize, base: u32, variable: &Variable) -> Found {
    let place = base.saturating_add(variable.offset);
    let spot = Spot {
        module,
        of: variable.of,
        address: place,
    };
    match variable.way {
        Way::Direct => Found::Value(spot),
        Way::Alias => Found::Value(Spot {
            address: address_at(state, place),
            ..spot
        }),
        Way::Open => Found::Open(
            Spot {
                address: address_at(state, place),
                ..spot
            },
            address_at(state, place.saturating_add(HIGH)),
        ),
    }
}

impl Views {
    /// A variable of a function that runs.
    pub fn local(&self, state: &State, frame: Frame, variable: &Variable) -> Option<Found> {
        let module = self.function(frame.function)?.module;
        Some(local(state, module, frame.base, variable))
    }

    /// A variable of a module.
    pub fn own(&self, module: usize, variable: &Variable) -> Option<Found> {
        Some(Found::Value(self.own_spot(module, variable)?))
    }

    /// The function around another, with the address of its variables.
    pub fn outwards(&self, state: &State, frame: Frame) -> Option<Frame> {
        let around = self.function(frame.function)?.around?;
        Some(Frame {
            function: u32::try_from(around).ok()?,
            base: address_at(state, frame.base),
            mark: None,
        })
    }

    /// A variable that a function or one around it has under this name.
    fn find_local(&self, state: &State, frame: Frame, name: &[u8]) -> Option<Found> {
        let mut frame = frame;
        for _ in 0..MOST_LEVELS {
            let view = self.function(frame.function)?;
            if let Some(variable) = named(&view.variables, name) {
                return Some(local(state, view.module, frame.base, variable));
            }
            frame = self.outwards(state, frame)?;
        }
        None
    }

    /// A variable of a module of this number.
    fn find_own(&self, module: usize, name: &[u8]) -> Option<Found> {
        let variable = named(&self.modules.get(module)?.variables, name)?;
        Some(Found::Value(self.own_spot(module, variable)?))
    }

    /// The module of a function that runs, or the program's own.
    pub fn module_of(&self, frame: Option<Frame>) -> usize {
        let last = self.modules.len().saturating_sub(1);
        frame
            .and_then(|it| self.function(it.function))
            .map_or(last, |it| it.module)
    }

    /// What stands under a name in a function that runs, or in the program's module if none runs.
    fn find_name(&self, state: &State, frame: Option<Frame>, name: &[u8]) -> Option<Found> {
        if let Some(found) = frame.and_then(|it| self.find_local(state, it, name)) {
            return Some(found);
        }
        self.find_own(self.module_of(frame), name)
    }

    /// What the begin of a path stands for, and the selectors behind it.
    fn find_begin<'a>(
        &self,
        state: &State,
        frame: Option<Frame>,
        path: &'a Path,
    ) -> Option<(Found, &'a [Selector])> {
        if let Some(found) = self.find_name(state, frame, &path.name) {
            return Some((found, &path.selectors));
        }
        let module = self.module_named(&path.name)?;
        match path.selectors.as_slice() {
            [Selector::Field(name), rest @ ..] => Some((self.find_own(module, name)?, rest)),
            _ => None,
        }
    }

    /// The constant of a type that has this name.
    fn constant_named(&self, base: TypeNo, name: &[u8]) -> Option<i64> {
        if are_same(base, BOOLEAN) {
            return match name {
                b"FALSE" => Some(0),
                b"TRUE" => Some(1),
                _ => None,
            };
        }
        let Home::Module(home) = base.home else {
            return None;
        };
        let module = self.modules.iter().find(|it| it.typed.types.home == home)?;
        let before = constants_before(&module.typed, base.number);
        let constants = module.constants.get(before..)?;
        let count = constants_before(&module.typed, base.number.saturating_add(1)).saturating_sub(
            before,
        );
        let at = constants
            .iter()
            .take(count)
            .position(|it| it.as_slice() == name)?;
        i64::try_from(at).ok()
    }

    /// The number of a value that computes in a type.
    fn number_of(
        &self,
        state: &State,
        frame: Option<Frame>,
        base: TypeNo,
        value: &Value,
    ) -> Option<i64> {
        match value {
            Value::Number(number) => Some(*number),
            Value::Named(name) => match self.constant_named(base, name) {
                Some(number) => Some(number),
                None => match self.find_name(state, frame, name)? {
                    Found::Value(spot) => self.scalar_at(state, spot).map(|it| it.0),
                    Found::Open(_, _) => None,
                },
            },
        }
    }

    /// The field of a record.
    fn field(&self, alloc: Global, found: Found, name: &[u8]) -> Result<Sought, AllocError> {
        if let Found::Value(spot) = found {
            if let Some(Form::Record(fields, row)) = self.form_at(spot) {
                let place = fields.place(name);
                let part = place.and_then(|at| Some((fields.get(at)?, row.starts.get(at)?)));
                if let Some(((_, of), start)) = part {
                    return Ok(Sought::Found(Found::Value(Spot {
                        of: *of,
                        address: spot.address.saturating_add(*start),
                        ..spot
                    })));
                }
                let name = word(alloc, name)?;
                return Ok(Sought::Missing(format!(in alloc; "the record has no field {name}")?));
            }
        }
        let name = word(alloc, name)?;
        Ok(Sought::Missing(format!(in alloc; "what stands in front of .{name} is no record")?))
    }

    /// The elements of an array, and its first one.
    fn elements_of(&self, found: Found) -> Option<(Spot, Elements)> {
        match found {
            Found::Value(spot) => match self.form_at(spot)? {
                Form::Array(elements) => Some((
                    Spot {
                        of: elements.element,
                        ..spot
                    },
                    elements,
                )),
                _ => None,
            },
            Found::Open(first, high) => Some((
                first,
                Elements {
                    index: CARDINAL,
                    element: first.of,
                    low: 0,
                    count: high.saturating_add(1),
                    one: self.size_at(first),
                },
            )),
        }
    }

    /// The type in which the indexes of an array compute.
    pub fn index_base(&self, spot: Spot, elements: Elements) -> TypeNo {
        self.modules
            .get(spot.module)
            .and_then(|it| scalar_of(&it.typed.types, elements.index))
            .map_or(elements.index, |it| it.base)
    }

    /// That an index is outside.
    fn outside(
        &self,
        alloc: Global,
        base: TypeNo,
        number: i64,
        elements: Elements,
    ) -> Result<Sought, AllocError> {
        let mut text = String::new(alloc);
        self.put_scalar(alloc, &mut text, base, number)?;
        text.push_str(" is not among the indexes ")?;
        self.put_scalar(alloc, &mut text, base, elements.low)?;
        text.push_str("..")?;
        let high = elements
            .low
            .saturating_add(i64::from(elements.count.saturating_sub(1)));
        self.put_scalar(alloc, &mut text, base, high)?;
        Ok(Sought::Missing(text))
    }

    /// The element of an array.
    fn element(
        &self,
        alloc: Global,
        state: &State,
        frame: Option<Frame>,
        found: Found,
        value: &Value,
    ) -> Result<Sought, AllocError> {
        let Some((first, elements)) = self.elements_of(found) else {
            return Ok(Sought::Missing(String::from_str(
                alloc,
                "what stands in front of the index is no array",
            )?));
        };
        let base = self.index_base(first, elements);
        let Some(number) = self.number_of(state, frame, base, value) else {
            return Ok(Sought::Missing(String::from_str(
                alloc,
                "an index is a number, a character, or the name of a constant or a variable",
            )?));
        };
        let place = u32::try_from(number.saturating_sub(elements.low)).unwrap_or(u32::MAX);
        if place >= elements.count {
            return self.outside(alloc, base, number, elements);
        }
        Ok(Sought::Found(Found::Value(Spot {
            address: first
                .address
                .saturating_add(place.saturating_mul(elements.one)),
            ..first
        })))
    }

    /// What a path stands for in a function that runs, or in the program's module if none runs. The only error is that memory ran
    /// out.
    pub fn find(
        &self,
        alloc: Global,
        state: &State,
        frame: Option<Frame>,
        path: &Path,
    ) -> Result<Sought, AllocError> {
        let Some((begin, selectors)) = self.find_begin(state, frame, path) else {
            let name = word(alloc, &path.name)?;
            return Ok(Sought::Missing(format!(in alloc; "there is no variable {name} here")?));
        };
        let mut found = begin;
        for selector in selectors {
            let sought = match selector {
                Selector::Field(name) => self.field(alloc, found, name)?,
                Selector::Index(value) => self.element(alloc, state, frame, found, value)?,
            };
            match sought {
                Sought::Found(next) => found = next,
                missing => return Ok(missing),
            }
        }
        Ok(Sought::Found(found))
    }

    /// Whether a condition holds in a function that runs. It does not if its variable is not there or is no scalar. The only error is
    /// that memory ran out.
    pub fn holds(
        &self,
        alloc: Global,
        state: &State,
        frame: Option<Frame>,
        condition: &Condition,
    ) -> Result<bool, AllocError> {
        let found = match self.find(alloc, state, frame, &condition.path)? {
            Sought::Found(Found::Value(spot)) => self.scalar_at(state, spot),
            _ => None,
        };
        let Some((left, base)) = found else {
            return Ok(false);
        };
        let Some(right) = self.number_of(state, frame, base, &condition.value) else {
            return Ok(false);
        };
        Ok(match condition.relation {
            Relation::Equal => left == right,
            Relation::Unequal => left != right,
            Relation::Less => left < right,
            Relation::AtMost => left <= right,
            Relation::Greater => left > right,
            Relation::AtLeast => left >= right,
        })
    }
}
