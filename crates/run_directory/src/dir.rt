//! Where modules are read from.

ghost use Rattle.std.specs.Prelude.{◌≡◌, ◌∷◌, [], List, ℕ, Option, None};
ghost use Rattle.run_directory.specs.Directory.{FileRead, Read, Stays, items_of, with_reads};

use std::alloc::Global;

/// A directory, or what stands for one.
pub trait InDir {
    /// The files that it was asked for, in order and with what they gave, if it notes them.
    ghost reads: { Self → Option (List FileRead) } = { λ _. None };

    /// What reading the file of that name in it may give: its bytes, or nothing.
    ghost gives: { Self → List ℕ → Option (List ℕ) → Type 0 };

    /// What stands in front of a message that a file of it cannot be read: whose file it is, or nothing.
    ghost in_front: { Self → List ℕ } = { λ _. [] };

    /// What stands behind the file's name in that message: why it cannot be read, or nothing.
    ghost behind: { Self → List ℕ } = { λ _. [] };

    /// The bytes of the file of this name. `None` if the file or memory failed.
    fn read(&mut self, alloc: Global, name: &str) -> Option<Vec<u8>>
        ensures noted { reads self.new
            ≡ with_reads (reads self.old) (Read name.now (items_of result) ∷ []) }
        ensures given { gives self.old name.now (items_of result) }
        ensures stays { Stays (gives self.old) (gives self.new) };

    /// What stands in front of a message that a file of it cannot be read.
    fn front(&self) -> &str
        ensures { result.now ≡ in_front self.now };

    /// What stands behind the file's name in that message, after a read that gave nothing.
    fn reason(&self) -> &str
        ensures { result.now ≡ behind self.now };
}
