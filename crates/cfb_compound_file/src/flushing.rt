//! What a file's medium keeps back is handed on.
ghost use Rattle.std.specs.Prelude.{◌≡◌, false, true, IsTrue, IfErr, OnOk};
ghost use Rattle.cfb_format.specs.Refused.{HasReason, no_error};
ghost use Rattle.cfb_compound_file.specs.cfb_rules.Calls.{done, flush};
ghost use Rattle.cfb_agreement.specs.Files.{SameSetting, failures_of, is_failed};
ghost use Rattle.cfb_agreement.specs.Laws.{with_flags};
ghost use Rattle.cfb_path_changes.specs.Answers.{IsDoneBy, IsRefusedBy};

use crate::compound_file::CompoundFile;
use cfb_format::error::Error;
use cfb_format::medium::Medium;
use std::alloc::Allocator as Heap;

impl<F: Medium, A: Heap> CompoundFile<F, A> {
    /// Flushes the medium. Every change has been passed to the medium before; on a journaled medium ([`open_journaled`]) this call is the
    /// commit. While a stream is open, [`Stream::flush`] does it.
    ///
    /// # Errors
    ///
    /// [`Error::Medium`], and the file has failed from then on. [`Error::Failed`] on a failed file; the medium is not asked then.
    pub fn flush(&mut self) -> Result<(), Error>
        ensures ok { IsTrue F.tells → OnOk result (IsDoneBy self.old flush done self.new) }
        ensures same { IsTrue F.tells → OnOk result (self.new ≡ self.old) }
        ensures unfailed { OnOk result (is_failed self.old ≡ false) }
        ensures ended { OnOk result (is_failed self.new ≡ false) }
        ensures setting { SameSetting self.old self.new }
        ensures rest { IsTrue F.tells
            → self.new ≡ with_flags self.old (failures_of self.new) (is_failed self.new) }
        ensures refused { IsTrue F.tells
            → IfErr result (IsRefusedBy F.write_faults self.old flush self.new) }
        ensures err { IfErr result (HasReason (record no_error {
          failed = (is_failed self.old ≡ true) × (self.new ≡ self.old);
          medium = λ f. (is_failed self.old ≡ false) × (is_failed self.new ≡ true);
        })) }
    {
        if self.volume.is_failed() {
            return Err(Error::Failed);
        }
        self.volume.flush()
    }
}
