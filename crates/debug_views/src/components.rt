//! Which variable stands at an address.

use crate::finding::{Found, local};
use crate::forms::{Elements, Form, Spot};
use crate::views::{Variable, Views};
use debug_history::{Frame, State};
use layout_storage::Row;
use std::alloc::{AllocError, Global};
use typed_tree::{Dictionary, TypeNo};

/// The most procedures that stand around one, and the most components in one another.
const MOST_LEVELS: usize = 256;

/// A variable or a component that is written.
#[derive(Drop)]
pub struct Component {
    /// As it is written in the language.
    pub name: String,
    pub spot: Spot,
    /// The bytes that it takes.
    pub size: u32,
}

/// The place of a variable, if an address lies in it.
#[derive(Clone, Copy)]
struct Holder<'a> {
    variable: &'a Variable,
    spot: Spot,
    /// The elements of an open array, of so many bytes each.
    one: Option<u32>,
    size: u32,
}

/// The part of a spot with this type that begins so many bytes behind.
fn part_of(spot: Spot, of: TypeNo, start: u32) -> Spot {
    Spot {
        module: spot.module,
        of,
        address: spot.address.saturating_add(start),
    }
}

/// The number of the field that has the byte of this number.
fn field_at(row: &Row, behind: u32) -> Option<usize> {
    row.starts
        .as_slice()
        .iter()
        .rposition(|start| *start <= behind)
}

/// Goes into the field of a record that has the byte of this number. False if there is none.
fn enter_field(
    alloc: Global,
    component: &mut Component,
    fields: &Dictionary<TypeNo>,
    row: &Row,
    behind: u32,
) -> Result<bool, AllocError> {
    let Some(number) = field_at(row, behind) else {
        return Ok(false);
    };
    let start = row.starts.as_slice().get(number).map_or(0, |it| *it);
    let Some((name, of)) = fields.get(number) else {
        return Ok(false);
    };
    component.name.push('.')?;
    let name = String::from_utf8_lossy(alloc, name)?;
    component.name.push_str(name.as_str())?;
    component.spot = part_of(component.spot, *of, start);
    Ok(true)
}

impl Views {
    /// Where a variable that is found stands.
    fn holder<'a>(&self, variable: &'a Variable, found: Found) -> Holder<'a> {
        match found {
            Found::Value(spot) => Holder {
                variable,
                spot,
                one: None,
                size: self.size_at(spot),
            },
            Found::Open(spot, high) => {
                let one = self.size_at(spot);
                Holder {
                    variable,
                    spot,
                    one: Some(one),
                    size: one.saturating_mul(high.saturating_add(1)),
                }
            }
        }
    }

    /// The variable of a function at an address.
    fn holder_in(&self, state: &State, frame: Frame, address: u32) -> Option<Holder<'_>> {
        let view = self.function(frame.function)?;
        for variable in &view.variables {
            let holder = self.holder(variable, local(state, view.module, frame.base, variable));
            if holder.has(address) {
                return Some(holder);
            }
        }
        None
    }

    /// The variable of a function or one around it at an address.
    fn local_holder(&self, state: &State, frame: Frame, address: u32) -> Option<Holder<'_>> {
        let mut frame = frame;
        for _ in 0..MOST_LEVELS {
            let holder = self.holder_in(state, frame, address);
            if holder.is_some() {
                return holder;
            }
            frame = self.outwards(state, frame)?;
        }
        None
    }

    /// The variable of a module at an address.
    fn own_holder(&self, module: usize, address: u32) -> Option<Holder<'_>> {
        for variable in &self.modules.get(module)?.variables {
            let holder = self.holder(variable, Found::Value(self.own_spot(module, variable)?));
            if holder.has(address) {
                return Some(holder);
            }
        }
        None
    }

    /// The module with a variable at an address, and this variable.
    fn any_holder(&self, address: u32) -> Option<(usize, Holder<'_>)> {
        for module in 0..self.modules.len() {
            if let Some(holder) = self.own_holder(module, address) {
                return Some((module, holder));
            }
        }
        None
    }

    /// Adds the index of an element to a name.
    fn put_index(
        &self,
        alloc: Global,
        name: &mut String,
        spot: Spot,
        elements: Elements,
        place: u32,
    ) -> Result<(), AllocError> {
        let base = self.index_base(spot, elements);
        name.push_str("[")?;
        let number = elements.low.saturating_add(i64::from(place));
        self.put_scalar(alloc, name, base, number)?;
        name.push_str("]")
    }

    /// Goes into the element of an array that has the byte of this number.
    fn enter_element(
        &self,
        alloc: Global,
        component: &mut Component,
        elements: Elements,
        behind: u32,
    ) -> Result<(), AllocError> {
        let spot = component.spot;
        let place = behind.checked_div(elements.one).unwrap_or(0);
        let start = place.saturating_mul(elements.one);
        self.put_index(alloc, &mut component.name, spot, elements, place)?;
        component.spot = part_of(spot, elements.element, start);
        Ok(())
    }

    /// Goes into the component at an address. False if there is none.
    fn enter(
        &self,
        alloc: Global,
        component: &mut Component,
        address: u32,
    ) -> Result<bool, AllocError> {
        let behind = address.saturating_sub(component.spot.address);
        let is_entered = match self.form_at(component.spot) {
            Some(Form::Array(elements)) => {
                self.enter_element(alloc, component, elements, behind)?;
                true
            }
            Some(Form::Record(fields, row)) => {
                enter_field(alloc, component, fields, row, behind)?
            }
            _ => false,
        };
        if is_entered {
            component.size = self.size_at(component.spot);
        }
        Ok(is_entered)
    }

    /// The component of a variable, into whose parts it is gone if it is not whole.
    fn component_of(
        &self,
        alloc: Global,
        holder: Holder<'_>,
        address: u32,
        is_whole: bool,
    ) -> Result<Component, AllocError> {
        let mut component = Component {
            name: String::from_utf8_lossy(alloc, &holder.variable.name)?,
            spot: holder.spot,
            size: holder.size,
        };
        if let Some(one) = holder.one {
            let place = address
                .saturating_sub(holder.spot.address)
                .checked_div(one)
                .unwrap_or(0);
            let index = format!(in alloc; "[{place}]")?;
            component.name.push_str(index.as_str())?;
            component.spot.address = holder
                .spot
                .address
                .saturating_add(place.saturating_mul(one));
            component.size = one;
        }
        for _ in 0..MOST_LEVELS {
            if is_whole || !self.enter(alloc, &mut component, address)? {
                break;
            }
        }
        Ok(component)
    }

    /// The variable or the component at an address, as it is named in a function that runs: the whole variable, or its least part.
    /// Nothing if none stands there that has a name here. The only error is that memory ran out.
    pub fn component_at(
        &self,
        alloc: Global,
        state: &State,
        frame: Frame,
        address: u32,
        is_whole: bool,
    ) -> Result<Option<Component>, AllocError> {
        if let Some(holder) = self.local_holder(state, frame, address) {
            return Ok(Some(self.component_of(alloc, holder, address, is_whole)?));
        }
        let Some((module, holder)) = self.any_holder(address) else {
            return Ok(None);
        };
        let mut component = self.component_of(alloc, holder, address, is_whole)?;
        if module != self.module_of(Some(frame)) {
            if let Some(view) = self.modules.get(module) {
                let name = String::from_utf8_lossy(alloc, &view.name)?;
                let whole = &component.name;
                component.name = format!(in alloc; "{name}.{whole}")?;
            }
        }
        Ok(Some(component))
    }
}

impl Holder<'_> {
    /// Whether an address lies in it.
    fn has(&self, address: u32) -> bool {
        self.spot.address <= address && address < self.spot.address.saturating_add(self.size)
    }
}
