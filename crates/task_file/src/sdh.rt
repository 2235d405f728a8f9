//! SDH: check code, sector size, bay and head, both ways.
ghost use Rattle.std.specs.Prelude.{◌≡◌, ◌<◌, Some, IfSome};
ghost use Rattle.task_file.specs.Sdh.{size_at, mode_at, selected, sdh_at, heads_in, sdh_byte};

use super::bay::Bay;
use check_code::CheckMode;
use sector::SizeCode;

/// What SDH selects: a bay, and the head on its drive.
#[derive(Clone, Copy, PartialEq, Eq, Debug)]
pub struct Selection {
    pub bay: Bay,
    pub head: u8,
}

/// SDH taken apart: check code, sector size, bay and head.
#[derive(Clone, Copy, PartialEq, Eq, Debug)]
pub struct Sdh {
    pub mode: CheckMode,
    pub size: SizeCode,
    pub at: Selection,
}

/// The sector size, in bits 6 and 5 of SDH.
pub(super) fn size_at(sdh: u8) -> SizeCode
    ensures { result ≡ size_at sdh }
{
    SizeCode::from_code(sdh / 32)
}

/// The check code, in bit 7 of SDH.
pub(super) fn mode_at(sdh: u8) -> CheckMode
    ensures { result ≡ mode_at sdh }
{
    if sdh >= 128 {
        CheckMode::Ecc
    } else {
        CheckMode::Crc
    }
}

/// The bay and the head, in bits 4 to 0 of SDH, if they select a bay.
pub(super) fn selected(sdh: u8) -> Option<Selection>
    ensures { result ≡ selected sdh }
{
    match sdh / 8 % 4 {
        0 => Some(Selection {
            bay: Bay::Winchester1,
            head: sdh % 8,
        }),
        3 if sdh / 2 % 4 == 0 => Some(Selection {
            bay: Bay::Floppy1,
            head: sdh % 2,
        }),
        _ => None,
    }
}

impl Bay {
    // How many heads SDH can select in the bay.
    fn heads(self) -> u8
        ensures { result ≡ heads_in self }
    {
        match self {
            Bay::Winchester1 => 8,
            Bay::Floppy1 => 2,
        }
    }
}

impl Sdh {
    /// What a byte says, or `None` where it selects no bay.
    pub fn from_byte(byte: u8) -> Option<Sdh>
        ensures sdh { result ≡ sdh_at byte }
        ensures back { IfSome result (λ sdh. sdh_byte sdh ≡ byte) }
    {
        Some(Sdh {
            mode: mode_at(byte),
            size: size_at(byte),
            at: selected(byte)?,
        })
    }

    /// The byte that says it. SDH has three bits for the head of a Winchester and one for that of a
    /// floppy: the head counts modulo 8, or modulo 2.
    pub fn byte(self) -> u8
        ensures byte { result ≡ sdh_byte self }
        ensures back { self.at.head < heads_in self.at.bay → sdh_at result ≡ Some self }
    {
        let mode = match self.mode {
            CheckMode::Crc => 0,
            CheckMode::Ecc => 0x80,
        };
        let bay = match self.at.bay {
            Bay::Winchester1 => 0,
            Bay::Floppy1 => 0x18,
        };
        mode + 32 * u8::from(self.size) + bay + self.at.head % self.at.bay.heads()
    }
}
