//! Where modules are saved.

ghost use Rattle.std.specs.Prelude.{◌≡◌, ◌<◌, ◌^◌, ◌+◌, ◌∷◌, [], ℕ, List, Option, if◌then◌else◌};
ghost use Rattle.write_directory.specs.Calls.{Call, Remove, Write, with_calls};

/// A directory, or what stands for one.
pub trait OutDir {
    /// How often it failed.
    ghost failed: { Self → ℕ };

    /// The calls that it was given, in order and with their answers, if it notes them.
    ghost calls: { Self → Option (List Call) };

    /// Removes the file of this name. True if there is none either. False if that failed: then there is one failure more.
    fn remove(&mut self, name: &str) -> bool
        requires { failed self.old + 1 < 2 ^ 64 }
        ensures failures { failed self.new
            ≡ (if result then failed self.old else failed self.old + 1) }
        ensures calls { calls self.new
            ≡ with_calls (calls self.old) (Remove name.now result ∷ []) };

    /// Writes these bytes as the file of this name. False if that failed: then there is one failure more, and what is
    /// there may be a part of them.
    fn write(&mut self, name: &str, bytes: &[u8]) -> bool
        requires { failed self.old + 1 < 2 ^ 64 }
        ensures failures { failed self.new
            ≡ (if result then failed self.old else failed self.old + 1) }
        ensures calls { calls self.new
            ≡ with_calls (calls self.old) (Write name.now bytes.now result ∷ []) };

    /// How often it failed.
    fn failures(&self) -> u64
        ensures { result ≡ failed self.now };
}
