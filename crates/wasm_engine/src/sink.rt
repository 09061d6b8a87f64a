//! Where printed bytes go.

ghost use Rattle.std.specs.Prelude.{◌≡◌, ℕ, List, [], ◌∷◌, ◌+◌, ◌<◌, ◌^◌, Option, if◌then◌else◌};
ghost use Rattle.wasm_engine.specs.Reported.{with_bytes};

/// Takes bytes one at a time, and counts its failures.
pub trait Sink {
    /// How often it failed.
    ghost failed: { Self → ℕ };

    /// The bytes that it took, if it reports them.
    ghost reported: { Self → Option (List ℕ) };

    /// Takes one byte. False if that failed: then the byte is not taken, and there is one failure more.
    fn take(&mut self, byte: u8) -> bool
        requires { failed self.old + 1 < 2 ^ 64 }
        ensures failures { failed self.new
            ≡ (if result then failed self.old else failed self.old + 1) }
        ensures bytes { reported self.new
            ≡ (if result then with_bytes (reported self.old) (byte ∷ []) else reported self.old) };

    /// How often it failed.
    fn failures(&self) -> u64
        ensures { result ≡ failed self.now };
}
