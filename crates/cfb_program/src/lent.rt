//! A medium that is lent to the library: its owner can ask it why it failed, also where no file comes
//! of it.
ghost use Rattle.std.specs.Prelude.{false, true, []};

use cfb::{Medium, MediumFault, ReadMedium};

/// Hands each call on to the medium.
#[derive(Drop)]
pub(crate) struct Lent<'a, F>(pub(crate) &'a mut F);

impl<F: ReadMedium> ReadMedium for Lent<'_, F> {
    ghost tells = { false };

    ghost bytes = { λ _. [] };

    ghost failures = { λ _. 0 };

    ghost read_faults = { λ _. true };

    fn length(&mut self) -> Result<u64, MediumFault> {
        self.0.length()
    }

    fn read_at(&mut self, at: u64, into: &mut [u8]) -> Result<usize, MediumFault> {
        self.0.read_at(at, into)
    }
}

impl<F: Medium> Medium for Lent<'_, F> {
    ghost write_faults = { λ _. true };

    fn write_at(&mut self, at: u64, from: &[u8]) -> Result<usize, MediumFault> {
        self.0.write_at(at, from)
    }

    fn flush(&mut self) -> Result<(), MediumFault> {
        self.0.flush()
    }
}
