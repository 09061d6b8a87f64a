//! Laws of spellings. There is no code here but what names them.

ghost use Rattle.std.specs.Prelude.{◌≡◌, ◌<◌, ◌^◌, ℕ, List, All};
ghost use Rattle.input_module.specs.Spelling.{read_off, spelled, IsHeld};

/// What is read off the characters of bytes is these bytes, and a string can hold each of the characters.
pub fn spelling_law()
    ensures reads { (bytes : List ℕ) → read_off (spelled bytes) ≡ bytes }
    ensures holds { (bytes : List ℕ) → All (λ b. b < 2 ^ 8) bytes → All IsHeld (spelled bytes) }
{}
