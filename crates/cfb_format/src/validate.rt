//! How much opening demands of a file.
ghost use Rattle.std.specs.Prelude.{◌≡◌, ◌↔◌, IsTrue};

/// How much opening checks.
#[derive(Clone, Copy, Debug, PartialEq, Eq, PartialOrd, Ord, Hash)]
pub enum Validation {
    /// Deviations that do no harm are accepted, and read as the value that should be there.
    Permissive,
    /// Every deviation is an error.
    Strict,
}

impl Validation {
    /// Whether opening is strict.
    pub fn is_strict(self) -> bool
        ensures { IsTrue result ↔ (self ≡ Validation.Strict) }
    {
        match self {
            Validation::Permissive => false,
            Validation::Strict => true,
        }
    }
}
