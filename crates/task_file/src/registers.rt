//! The eight registers, and what those that the host writes say.
ghost use Rattle.std.specs.Prelude.{◌≡◌};
ghost use Rattle.std.specs.Result.{result_ok};
ghost use Rattle.task_file.specs.Registers.{register_number, register_numbered, cylinder_of, place_under, address_under, next_sector, sector_count, stored};
ghost use Rattle.task_file.specs.Sdh.{size_at, mode_at, selected};

use super::sdh::{Selection, mode_at, selected, size_at};
use check_code::CheckMode;
use drive::{Place, SectorAddress};
use sector::SizeCode;
use thiserror::Error;

/// A register, by its number.
#[derive(Clone, Copy)]
pub enum Register {
    Data = 0,
    Error = 1,
    /// Sector count.
    Count = 2,
    /// Sector number.
    Number = 3,
    CylinderLow = 4,
    CylinderHigh = 5,
    /// Size, drive and head.
    Sdh = 6,
    /// Status when read and command when written.
    Status = 7,
}

/// The error of a number that no register has.
#[derive(Clone, Copy, PartialEq, Eq, Debug, Error)]
#[error("no register has this number")]
pub struct NoSuchRegister;

/// The registers that keep what the host writes, whole; all are 0 at first.
#[derive(Clone, Copy, Default)]
pub struct Registers {
    /// Sector count; 0 stands for 256.
    pub count: u8,
    /// Sector number.
    pub number: u8,
    pub cylinder_low: u8,
    /// Of it only bits 1 and 0 count.
    pub cylinder_high: u8,
    /// Bit 7 check code, bits 6 and 5 size code, bits 4 to 0 drive and head.
    pub sdh: u8,
}

impl TryFrom<u8> for Register {
    type Error = NoSuchRegister;

    ghost try_from_gives = { λ number made. result_ok made ≡ register_numbered number };

    // The register of a number, if it has one.
    fn try_from(number: u8) -> Result<Register, NoSuchRegister> {
        match number {
            0 => Ok(Register::Data),
            1 => Ok(Register::Error),
            2 => Ok(Register::Count),
            3 => Ok(Register::Number),
            4 => Ok(Register::CylinderLow),
            5 => Ok(Register::CylinderHigh),
            6 => Ok(Register::Sdh),
            7 => Ok(Register::Status),
            _ => Err(NoSuchRegister),
        }
    }
}

impl From<Register> for u8 {
    ghost from_gives = { λ register number. number ≡ register_number register };

    // The number of a register.
    fn from(register: Register) -> u8 {
        register as u8
    }
}

impl Registers {
    /// The cylinder, from 0 to 1,023: the low byte, and bits 1 and 0 of the high byte above it.
    pub fn cylinder(self) -> u16
        ensures { result ≡ cylinder_of self }
    {
        u16::from_be_bytes([self.cylinder_high % 4, self.cylinder_low])
    }

    /// The sector size, in bits 6 and 5 of SDH.
    pub fn size(self) -> SizeCode
        ensures { result ≡ size_at self.sdh }
    {
        size_at(self.sdh)
    }

    /// The check code, in bit 7 of SDH.
    pub fn mode(self) -> CheckMode
        ensures { result ≡ mode_at self.sdh }
    {
        mode_at(self.sdh)
    }

    /// The bay and the head, in bits 4 to 0 of SDH, if they select a bay.
    pub fn selection(self) -> Option<Selection>
        ensures { result ≡ selected self.sdh }
    {
        selected(self.sdh)
    }

    /// The place that they name under the selected head.
    pub fn place(self, at: Selection) -> Place
        ensures { result ≡ place_under self at }
    {
        Place {
            cylinder: self.cylinder(),
            head: at.head,
            number: self.number,
        }
    }

    /// What an attempt at the sector there names.
    pub fn address(self, at: Selection) -> SectorAddress
        ensures { result ≡ address_under self at }
    {
        SectorAddress {
            head: at.head,
            number: self.number,
            size: self.size(),
        }
    }

    /// How many sectors the count stands for, from 1 to 256: 0 is 256.
    pub fn sectors(self) -> u16
        ensures { result ≡ sector_count self }
    {
        if self.count == 0 {
            256
        } else {
            u16::from(self.count)
        }
    }

    /// One sector fewer, and the next number, both modulo 256.
    pub fn advance(&mut self)
        ensures { self.new ≡ next_sector self.old }
    {
        self.count = self.count.wrapping_sub(1);
        self.number = self.number.wrapping_add(1);
    }

    /// Keeps a byte that the host writes; one for another register is dropped.
    pub fn store(&mut self, register: Register, byte: u8)
        ensures { self.new ≡ stored self.old register byte }
    {
        match register {
            Register::Count => self.count = byte,
            Register::Number => self.number = byte,
            Register::CylinderLow => self.cylinder_low = byte,
            Register::CylinderHigh => self.cylinder_high = byte,
            Register::Sdh => self.sdh = byte,
            _ => {}
        }
    }
}
