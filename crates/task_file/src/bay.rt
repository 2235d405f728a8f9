//! The bays.
ghost use Rattle.std.specs.Prelude.{◌≡◌, ◌<◌};
ghost use Rattle.task_file.specs.declared.bay.Bay.{Bay};
ghost use Rattle.task_file.specs.Bays.{bay_number, bay_index, is_floppy};

/// How many bays there are.
pub const BAYS: usize = 2;

/// A bay, by the board's number: from 4 on they are floppies.
#[derive(Clone, Copy, PartialEq, Eq, Debug)]
pub enum Bay {
    Winchester1 = 1,
    Floppy1 = 4,
}

impl From<Bay> for u8 {
    ghost from_gives = { λ bay number. number ≡ bay_number bay };

    // The number of a bay.
    fn from(bay: Bay) -> u8 {
        bay as u8
    }
}

impl Bay {
    /// Where its drive stands among all drives, from 0: they are in the order of their numbers.
    pub fn index(self) -> usize
        ensures index { result ≡ bay_index self }
        ensures few { result < 2 }
        ensures ordered { (other : Bay) → bay_number other < bay_number self
            → bay_index other < result }
    {
        match self {
            Bay::Winchester1 => 0,
            Bay::Floppy1 => 1,
        }
    }

    // Whether it is for a floppy, whatever drive is in it.
    pub(super) fn is_floppy(self) -> bool
        ensures { result ≡ is_floppy self }
    {
        matches!(self, Bay::Floppy1)
    }
}
