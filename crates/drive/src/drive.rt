//! What every drive does.
ghost use Rattle.std.specs.Prelude.{◌≡◌, ℕ};
ghost use Rattle.drive.specs.Model.{DriveModel};
ghost use Rattle.drive.specs.Calls.{step_answer, stepped_in, stepped_out, read_answer, handed_over, after_read, write_answer, after_write, format_answer, after_format};
ghost use Rattle.drive.specs.Bounds.{measures, Limits, Bounded};

use super::answers::{FormatError, NotReady, ReadError, SectorId, WriteError};
use super::buffer::SectorBuffer;
use super::geometry::Geometry;
use super::place::SectorAddress;
use sector::SizeCode;

/// A drive, by its meaning. Cylinders, heads and sector numbers count from 0; an attempt and a
/// format are made at the cylinder under the head.
pub trait Drive {
    /// The most cylinders that a drive of this make has.
    const MOST_CYLINDERS: u16;

    ghost MOST_CYLINDERS: { ℕ };

    /// The most heads that a drive of this make has.
    const MOST_HEADS: u8;

    ghost MOST_HEADS: { ℕ };

    // What the drive means.
    ghost meaning: { Self → DriveModel };

    /// How many cylinders and heads the drive has, and how much room a track; they never change.
    fn geometry(&self) -> Geometry
        ensures { result ≡ (meaning self.now).geometry };

    /// Whether the drive is ready; one that is not refuses steps, attempts and formats.
    fn is_ready(&self) -> bool
        ensures { result ≡ (meaning self.now).ready };

    /// Whether the drive refuses write attempts and formats.
    fn is_protected(&self) -> bool
        ensures { result ≡ (meaning self.now).protected };

    /// The cylinder that the head stands at.
    fn cylinder(&self) -> u16
        ensures { result ≡ (meaning self.now).cylinder };

    /// One cylinder in, to higher numbers; at the last the head stays.
    fn step_in(&mut self) -> Result<(), NotReady>
        ensures answer { result ≡ step_answer (meaning self.old) }
        ensures after { meaning self.new ≡ stepped_in (meaning self.old) };

    /// One cylinder out; at cylinder 0 the head stays.
    fn step_out(&mut self) -> Result<(), NotReady>
        ensures answer { result ≡ step_answer (meaning self.old) }
        ensures after { meaning self.new ≡ stepped_out (meaning self.old) };

    /// A read attempt at the first sector of this number and size under the head. Only a delivery
    /// changes the buffer.
    fn read(&mut self, at: SectorAddress, buffer: &mut SectorBuffer) -> Result<(), ReadError>
        ensures answer { result ≡ read_answer (meaning self.old) at.head at.number at.size }
        ensures handed { buffer.new
            ≡ handed_over (meaning self.old) at.head at.number at.size buffer.old }
        ensures after { meaning self.new ≡ after_read (meaning self.old) at.head at.number };

    /// A write attempt at that sector: it takes the buffer's first bytes, as many as its size, and
    /// the check bytes.
    fn write(&mut self, at: SectorAddress, buffer: &SectorBuffer) -> Result<(), WriteError>
        ensures answer { result ≡ write_answer (meaning self.old) at.head at.number at.size }
        ensures after { meaning self.new
            ≡ after_write (meaning self.old) at.head at.number at.size buffer.now };

    /// Replaces the track under the head by sectors of one size, with zero bytes and these check
    /// bytes.
    fn format(
        &mut self,
        head: u8,
        ids: &[SectorId],
        size: SizeCode,
        check: [u8; 4],
    ) -> Result<(), FormatError>
        ensures answer { result ≡ format_answer (meaning self.old) head ids.now size }
        ensures after { meaning self.new
            ≡ after_format (meaning self.old) head ids.now size check };

    ghost limits: { Limits (measures MOST_CYLINDERS MOST_HEADS) };

    ghost bounded: { (d : Self) → Bounded (measures MOST_CYLINDERS MOST_HEADS) (meaning d) };
}
