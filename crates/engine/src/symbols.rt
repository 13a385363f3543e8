ghost use Rattle.std.specs.Prelude.{◌≡◌, ℕ};

/// Anything with a code from 0 to 255; asking for it changes and refuses nothing.
/// A text is a slice of symbols: `97u8.code()` is 97.
pub trait Symbol {
    ghost code: { Self → ℕ };

    fn code(&self) -> u8
        ensures { result ≡ code self.now };
}

/// A byte's code is the byte.
impl Symbol for u8 {
    ghost code = { λ b. b };

    fn code(&self) -> u8 {
        *self
    }
}
