//! Values in words of the language.

use crate::building::constants_before;
use crate::finding::Found;
use crate::forms::{Elements, Form, Spot};
use crate::views::Views;
use debug_history::State;
use std::alloc::{AllocError, Global};
use std::fmt::Write;
use typed_tree::{BOOLEAN, CHAR, Home, TypeNo, are_same};

/// The most parts of a value that are shown.
const MOST_PARTS: usize = 128;

/// The most characters of a string that are shown.
const MOST_CHARACTERS: u32 = 256;

/// The elements of a set.
const SET_ELEMENTS: u32 = 32;

/// What is still to be shown, the next one last.
#[derive(Clone, Copy)]
enum Work {
    Value(Spot),
    /// So many elements from one on, each of so many bytes, and whether it is the first.
    Elements(Spot, u32, u32, bool),
    /// The fields of a record from one on.
    Fields(Spot, usize),
}

/// A value that is written.
#[derive(Drop)]
struct Writer<'a> {
    views: &'a Views,
    state: &'a State,
    text: String,
    work: Vec<Work>,
}

/// Whether a character is shown as it is.
fn is_plain(code: u8) -> bool {
    code == b' ' || code.is_ascii_graphic()
}

/// A character.
fn put_character(text: &mut String, number: i64) -> Result<(), AllocError> {
    match u8::try_from(number) {
        Ok(code) if is_plain(code) => {
            let quote = if code == b'\'' { '"' } else { '\'' };
            text.push(quote)?;
            text.push(char::from(code))?;
            text.push(quote)
        }
        _ => write!(text, "{number:o}C"),
    }
}

impl Views {
    /// The constant of an enumeration with this number.
    fn constant_name(&self, base: TypeNo, number: i64) -> Option<&[u8]> {
        let Home::Module(home) = base.home else {
            return None;
        };
        let module = self.modules.iter().find(|it| it.typed.types.home == home)?;
        let before = constants_before(&module.typed, base.number);
        let at = before.saturating_add(usize::try_from(number).ok()?);
        Some(module.constants.get(at)?.as_slice())
    }

    /// Writes a scalar that computes in a type.
    pub fn put_scalar(
        &self,
        alloc: Global,
        text: &mut String,
        base: TypeNo,
        number: i64,
    ) -> Result<(), AllocError> {
        if are_same(base, BOOLEAN) {
            return text.push_str(if number == 0 { "FALSE" } else { "TRUE" });
        }
        if are_same(base, CHAR) {
            return put_character(text, number);
        }
        match self.constant_name(base, number) {
            Some(name) => text.push_str(String::from_utf8_lossy(alloc, name)?.as_str()),
            None => write!(text, "{number}"),
        }
    }

    /// The procedure that a cell names by its number in the table.
    fn procedure_name(&self, slot: u32) -> Option<&str> {
        let module = self.modules.iter().rev().find(|it| it.slot <= slot)?;
        let number = module
            .first
            .saturating_add(slot.saturating_sub(module.slot) as usize);
        self.functions.get(number).map(|it| it.name.as_str())
    }
}

impl Writer<'_> {
    /// Writes the elements of a set.
    fn put_set(&mut self, bits: u64) -> Result<(), AllocError> {
        self.text.push_str("{")?;
        let mut between = "";
        for element in 0..SET_ELEMENTS {
            if bits.wrapping_shr(element) % 2 == 1 {
                write!(self.text, "{between}{element}")?;
                between = ", ";
            }
        }
        self.text.push_str("}")
    }

    /// Writes the characters of an array up to 0C.
    fn put_characters(&mut self, address: u32, count: u32) -> Result<(), AllocError> {
        self.text.push_str("\"")?;
        for at in 0..count {
            let code = self.state.byte(address.saturating_add(at));
            if code == 0 {
                break;
            }
            if at >= MOST_CHARACTERS {
                self.text.push_str("..")?;
                break;
            }
            if is_plain(code) {
                self.text.push(char::from(code))?;
            } else {
                write!(self.text, "<{code:o}C>")?;
            }
        }
        self.text.push_str("\"")
    }

    /// Whether the value at a place is a character of a byte.
    fn is_character(&self, spot: Spot) -> bool {
        match self.views.form_at(spot) {
            Some(Form::Scalar(_, base)) => are_same(base, CHAR) && self.views.size_at(spot) == 1,
            _ => false,
        }
    }

    /// Writes elements, the first of which stands here.
    fn put_elements(&mut self, first: Spot, count: u32, one: u32) -> Result<(), AllocError> {
        if self.is_character(first) {
            return self.put_characters(first.address, count);
        }
        self.text.push_str("[")?;
        self.work.push(Work::Elements(first, count, one, true))?;
        Ok(())
    }

    /// Writes an array.
    fn put_array(&mut self, spot: Spot, elements: Elements) -> Result<(), AllocError> {
        let first = Spot {
            of: elements.element,
            ..spot
        };
        self.put_elements(first, elements.count, elements.one)
    }

    /// Writes a procedure value.
    fn put_procedure(&mut self, slot: u64) -> Result<(), AllocError> {
        let name = u32::try_from(slot)
            .ok()
            .filter(|it| *it > 0)
            .and_then(|it| self.views.procedure_name(it));
        self.text.push_str(name.unwrap_or("no procedure"))
    }

    /// Writes the value at a place.
    fn put_value(&mut self, spot: Spot) -> Result<(), AllocError> {
        let views = self.views;
        match views.form_at(spot) {
            Some(Form::Scalar(_, _)) => match views.scalar_at(self.state, spot) {
                Some((number, base)) => {
                    let alloc = *self.work.allocator();
                    views.put_scalar(alloc, &mut self.text, base, number)
                }
                None => Ok(()),
            },
            Some(Form::Set) => self.put_set(self.state.number(spot.address, 4)),
            Some(Form::Array(elements)) => self.put_array(spot, elements),
            Some(Form::Record(_, _)) => {
                self.text.push_str("(")?;
                self.work.push(Work::Fields(spot, 0))?;
                Ok(())
            }
            Some(Form::Procedure) => self.put_procedure(self.state.number(spot.address, 4)),
            None => self.text.push_str("?"),
        }
    }

    /// Goes on with elements.
    fn next_element(
        &mut self,
        spot: Spot,
        left: u32,
        one: u32,
        is_first: bool,
    ) -> Result<(), AllocError> {
        if left == 0 {
            return self.text.push_str("]");
        }
        if !is_first {
            self.text.push_str(", ")?;
        }
        let next = Spot {
            address: spot.address.saturating_add(one),
            ..spot
        };
        self.work
            .push(Work::Elements(next, left.saturating_sub(1), one, false))?;
        self.work.push(Work::Value(spot))?;
        Ok(())
    }

    /// Goes on with fields.
    fn next_field(&mut self, spot: Spot, number: usize) -> Result<(), AllocError> {
        let views = self.views;
        let Some(Form::Record(fields, row)) = views.form_at(spot) else {
            return Ok(());
        };
        let (Some((name, of)), Some(start)) = (fields.get(number), row.starts.get(number)) else {
            return self.text.push_str(")");
        };
        if number > 0 {
            self.text.push_str(", ")?;
        }
        let alloc = *self.work.allocator();
        let name = String::from_utf8_lossy(alloc, name)?;
        write!(self.text, "{name} = ")?;
        self.work
            .push(Work::Fields(spot, number.saturating_add(1)))?;
        self.work.push(Work::Value(Spot {
            of: *of,
            address: spot.address.saturating_add(*start),
            ..spot
        }))?;
        Ok(())
    }

    /// Writes all of it, as far as there is room.
    fn finish(mut self) -> Result<String, AllocError> {
        for _ in 0..MOST_PARTS {
            match self.work.pop() {
                None => break,
                Some(Work::Value(spot)) => self.put_value(spot)?,
                Some(Work::Elements(spot, left, one, is_first)) => {
                    self.next_element(spot, left, one, is_first)?;
                }
                Some(Work::Fields(spot, number)) => self.next_field(spot, number)?,
            }
        }
        if !self.work.is_empty() {
            self.text.push_str(" ..")?;
        }
        let Writer { text, .. } = self;
        Ok(text)
    }
}

impl Views {
    /// What is found, in words of the language. Of what is long the begin alone. The only error is that memory ran out.
    pub fn text_of<'a>(
        &'a self,
        alloc: Global,
        state: &'a State,
        found: Found,
    ) -> Result<String, AllocError> {
        let mut writer = Writer {
            views: self,
            state,
            text: String::new(alloc),
            work: Vec::new(alloc),
        };
        match found {
            Found::Value(spot) => writer.work.push(Work::Value(spot))?,
            Found::Open(first, high) => {
                let one = self.size_at(first);
                writer.put_elements(first, high.saturating_add(1), one)?;
            }
        }
        writer.finish()
    }
}
