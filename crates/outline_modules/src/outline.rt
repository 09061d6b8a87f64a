//! A definition module, by the parts of its text.

use crate::pieces::{Piece, pieces_of};
use crate::units::{Sort, Unit, units_of};
use m2_parse::{ParseError, parse};
use m2_tree::{Contents, Pos, Token};
use scan_tokens::{ScanError, scan};
use std::alloc::{AllocError, Global};
use text_tokens::part;

/// Why a text has no page.
#[derive(Clone, Copy, PartialEq, Eq)]
pub enum DocumentFault {
    /// It breaks a rule of tokens or of the grammar, at this place: the refusal with this number.
    Refused(Pos, u32),
    /// It is no definition of the module whose name its file has.
    OtherModule,
    /// A request for memory was refused.
    NoMemory,
}

impl From<AllocError> for DocumentFault {
    ghost use Rattle.std.specs.Prelude.{◌≡◌};
    ghost use Rattle.outline_modules.specs.declared.outline.DocumentFault.TheVariants.{NoMemory};

    ghost from_gives = { λ _ e. e ≡ NoMemory };

    fn from(_: AllocError) -> DocumentFault {
        DocumentFault::NoMemory
    }
}

/// The parts of the text of a definition module.
#[derive(Drop)]
pub struct Outline<'a> {
    pub name: &'a str,
    pub text: &'a [u8],
    pub pieces: Vec<Piece>,
    pub units: Vec<Unit>,
}

impl<'a> Outline<'a> {
    /// The bytes of the piece of this number.
    pub fn bytes_of(&self, number: usize) -> &'a [u8] {
        match self.pieces.get(number) {
            Some(piece) => part(self.text, piece.begin, piece.end),
            None => b"",
        }
    }

    /// Whether the piece of this number is a comment.
    pub fn is_comment(&self, number: usize) -> bool {
        self.pieces.get(number).is_some_and(|it| it.is_comment())
    }

    /// The heading, which each text has that has a tree.
    pub fn heading(&self) -> Option<Unit> {
        match self.units.first() {
            Some(unit) if unit.sort == Sort::Heading => Some(*unit),
            _ => None,
        }
    }
}

/// The tokens of a text that has the tree of a definition of the module of this name.
fn tokens_of(alloc: Global, name: &str, text: &[u8]) -> Result<Vec<Token>, DocumentFault> {
    let tokens = match scan(alloc, text) {
        Ok(tokens) => tokens,
        Err(ScanError::NoMemory) => return Err(DocumentFault::NoMemory),
        Err(ScanError::Refused(refusal)) => {
            return Err(DocumentFault::Refused(refusal.pos, refusal.broken.number()));
        }
    };
    let module = match parse(alloc, &tokens) {
        Ok(module) => module,
        Err(ParseError::NoMemory) => return Err(DocumentFault::NoMemory),
        Err(ParseError::Refused(refusal)) => {
            return Err(DocumentFault::Refused(refusal.pos, refusal.number));
        }
    };
    let is_definition = matches!(&module.contents, Contents::Definition(_));
    if !is_definition || module.name.name.as_bytes() != name.as_bytes() {
        return Err(DocumentFault::OtherModule);
    }
    Ok(tokens)
}

/// The parts of the text of the definition of the module of this name. The errors are the refusal of a text that breaks a rule
/// of tokens or of the grammar, that it is another module, and that memory ran out.
pub fn read_definition<'a>(
    alloc: Global,
    name: &'a str,
    text: &'a [u8],
) -> Result<Outline<'a>, DocumentFault> {
    let tokens = tokens_of(alloc, name, text)?;
    let pieces = pieces_of(alloc, text, &tokens)?;
    let units = units_of(alloc, &pieces)?;
    Ok(Outline {
        name,
        text,
        pieces,
        units,
    })
}
