//! What proofs alone know of the calls that a stream or a folder made of the system.

ghost use Rattle.std.specs.Prelude.{◌≡◌, ℕ, List, [], ◌∷◌, ◌++◌, Some, None};
ghost use Rattle.std.specs.Borrow.{ftrue};
ghost use Rattle.run_directory.specs.Directory.{FileRead, Read};
ghost use Rattle.write_directory.specs.Calls.{Call, Remove, Write};

use std::marker::Model;

/// Notes of what the system did. They take no room, and nothing that runs depends on them.
#[derive(Drop)]
pub struct Notes {
    /// The bytes that it took, in order.
    pub ghost bytes: { List ℕ },
    /// The files that it was asked to read, in order and with what they gave.
    pub ghost reads: { List FileRead },
    /// The files that it was asked to remove or to write, in order and with its answers.
    pub ghost calls: { List Call },
}

impl Model for Notes {
    ghost also_owns = { λ _. ftrue };
}

/// No notes.
pub fn nothing() -> Notes
    ensures { (result.bytes ≡ []) × (result.reads ≡ []) × (result.calls ≡ []) }
{
    Notes {}
}

/// The notes, and bytes behind them. It does nothing.
#[inline(always)]
pub fn with_bytes(_notes: &Notes, _more: &[u8]) -> Notes
    ensures { result.bytes ≡ _notes.now.bytes ++ _more.now }
{
    Notes {}
}

/// The notes, and a file that was read behind them. It does nothing.
#[inline(always)]
pub fn with_read(_notes: &Notes, _name: &[u8], _bytes: &[u8]) -> Notes
    ensures { result.reads ≡ _notes.now.reads ++ Read _name.now (Some _bytes.now) ∷ [] }
{
    Notes {}
}

/// The notes, and a file that could not be read behind them. It does nothing.
#[inline(always)]
pub fn with_failed_read(_notes: &Notes, _name: &[u8]) -> Notes
    ensures { result.reads ≡ _notes.now.reads ++ Read _name.now None ∷ [] }
{
    Notes {}
}

/// The notes, and a removal behind them. It does nothing.
#[inline(always)]
pub fn with_removal(_notes: &Notes, _name: &[u8], _is_done: bool) -> Notes
    ensures { result.calls ≡ _notes.now.calls ++ Remove _name.now _is_done ∷ [] }
{
    Notes {}
}

/// The notes, and a write behind them. It does nothing.
#[inline(always)]
pub fn with_write(_notes: &Notes, _name: &[u8], _bytes: &[u8], _is_done: bool) -> Notes
    ensures { result.calls ≡ _notes.now.calls ++ Write _name.now _bytes.now _is_done ∷ [] }
{
    Notes {}
}
