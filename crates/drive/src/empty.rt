//! The bay without a drive.
ghost use Rattle.std.specs.Prelude.{◌≡◌};
ghost use Rattle.drive.specs.Empty.{empty_model, keeping, kept_in};
ghost use Rattle.std.proofs.Common.{rules};

use super::answers::{FormatError, NotReady, ReadError, SectorId, WriteError};
use super::buffer::SectorBuffer;
use super::drive::Drive;
use super::geometry::Geometry;
use super::place::SectorAddress;
use sector::SizeCode;

/// A bay without a drive, with the memory that came for one: one cylinder, one head, no room on its
/// track, never ready.
#[derive(Clone, Debug, Drop)]
pub struct EmptyBay {
    memory: Vec<u8>,
}

impl EmptyBay {
    /// A bay without a drive, with this memory.
    pub fn new(memory: Vec<u8>) -> EmptyBay
        ensures { result ≡ keeping memory }
    {
        EmptyBay { memory }
    }

    /// The memory, untouched.
    pub fn into_memory(self) -> Vec<u8>
        ensures { self ≡ keeping result }
    {
        self.memory
    }
}

impl Drive for EmptyBay {
    const MOST_CYLINDERS: u16 = 1;

    ghost MOST_CYLINDERS = { 1 };

    const MOST_HEADS: u8 = 1;

    ghost MOST_HEADS = { 1 };

    ghost meaning = { λ b. empty_model (kept_in b) };

    ghost limits = { Prim.search rules };

    ghost bounded = { Prim.search rules };

    fn geometry(&self) -> Geometry {
        Geometry {
            cylinders: 1,
            heads: 1,
            capacity: 0,
        }
    }

    fn is_ready(&self) -> bool {
        false
    }

    fn is_protected(&self) -> bool {
        false
    }

    fn cylinder(&self) -> u16 {
        0
    }

    fn step_in(&mut self) -> Result<(), NotReady> {
        Err(NotReady)
    }

    fn step_out(&mut self) -> Result<(), NotReady> {
        Err(NotReady)
    }

    fn read(&mut self, _at: SectorAddress, _buffer: &mut SectorBuffer) -> Result<(), ReadError> {
        Err(ReadError::NotReady)
    }

    fn write(&mut self, _at: SectorAddress, _buffer: &SectorBuffer) -> Result<(), WriteError> {
        Err(WriteError::NotReady)
    }

    fn format(
        &mut self,
        _head: u8,
        _ids: &[SectorId],
        _size: SizeCode,
        _check: [u8; 4],
    ) -> Result<(), FormatError> {
        Err(FormatError::NotReady)
    }
}
