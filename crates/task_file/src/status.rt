//! What the host can ask of the state: the status, the error register, the other registers, the
//! lines, the last fault.
ghost use Rattle.std.specs.Prelude.{◌≡◌};
ghost use Rattle.task_file.specs.Failures.{error_byte, last_fault};
ghost use Rattle.task_file.specs.State.{is_busy, requests};
ghost use Rattle.task_file.specs.Status.{status_of};

use super::failure::Fault;
use super::state::{Phase, State};
use super::view::DriveView;

/// What the status reads while BUSY is on.
pub const BUSY: u8 = 0x80;

/// Bits 6 and 4 of the status: the selected drive is ready.
pub const READY: u8 = 0x50;

/// Bit 5 of the status: a protected Winchester is selected, or the protection note is set.
pub const PROTECTED: u8 = 0x20;

/// Bit 3 of the status: DRQ, the data request.
pub const DATA_REQUEST: u8 = 0x08;

/// Bit 2 of the status: a sector was corrected.
pub const CORRECTED: u8 = 0x04;

/// Bit 0 of the status: the command failed.
pub const ERROR: u8 = 0x01;

impl Phase {
    /// BUSY: a command is under way.
    pub fn is_busy(self) -> bool
        ensures { result ≡ is_busy self }
    {
        matches!(self, Phase::Busy(_))
    }

    /// DRQ, the data request: bytes move one way.
    pub fn requests(self) -> bool
        ensures { result ≡ requests self }
    {
        matches!(self, Phase::Offering(_, _) | Phase::Taking(_, _))
    }
}

impl State {
    /// The status, with the drive that SDH selects now, if it selects one.
    pub fn status(&self, view: Option<DriveView>) -> u8
        ensures { result ≡ status_of self.now view }
    {
        if self.phase.is_busy() {
            return BUSY;
        }
        let ready = view.is_some_and(|drive| drive.ready);
        let locked = view.is_some_and(|drive| drive.protected && !drive.at.bay.is_floppy());
        READY * u8::from(ready)
            + PROTECTED * u8::from(self.protection_note || locked)
            + DATA_REQUEST * u8::from(self.phase.requests())
            + CORRECTED * u8::from(self.corrected)
            + ERROR * u8::from(self.failure.is_some())
    }

    /// The error register: 0 without a failure.
    pub fn error(&self) -> u8
        ensures { result ≡ error_byte self.now.failure }
    {
        self.failure.map_or(0, |failure| failure.bit())
    }

    /// The last fault: absent whenever Error is off.
    pub fn last_fault(&self) -> Option<Fault>
        ensures { result ≡ last_fault self.now.failure }
    {
        self.failure.map(|failure| Fault::from(failure))
    }
}
