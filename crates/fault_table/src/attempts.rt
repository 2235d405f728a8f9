//! Attempts on the drive below, as they come out under an entry.
ghost use Rattle.std.specs.Prelude.{◌≡◌, cond, Err};
ghost use Rattle.sector.specs.Bits.{set_of};
ghost use Rattle.drive.specs.declared.answers.WriteError.TheVariants as write_error;
ghost use Rattle.drive.specs.Calls.{read_answer, handed_over, after_read, write_answer, after_write};
ghost use Rattle.fault_table.specs.Entries.{hides_all};
ghost use Rattle.fault_table.specs.Under.{read_under, with_wrong_bits, handed_under};

use super::entry::{FaultEntry, FaultKind};
use drive::{Drive, ReadError, SectorAddress, SectorBuffer, WriteError};
use sector::{Burst, SizeCode, invert_burst};

// Inverts a burst in the sector of this size that stands in the buffer, and in its check bytes.
fn damage(buffer: &mut SectorBuffer, size: SizeCode, burst: Burst)
    ensures { buffer.new ≡ with_wrong_bits size (set_of burst) buffer.old }
{
    let length = size.bytes();
    invert_burst(&mut buffer.bytes[0..length], 0, burst);
    invert_burst(&mut buffer.check, (8 * length) as u16, burst);
}

/// A read attempt under what it meets: the burst is inverted in what the drive below delivers, and
/// without a data mark that goes nowhere.
pub fn read_met<D: Drive>(
    drive: &mut D,
    met: Option<FaultEntry>,
    at: SectorAddress,
    buffer: &mut SectorBuffer,
) -> Result<(), ReadError>
    ensures answer { result
        ≡ read_under met (read_answer (D.meaning drive.old) at.head at.number at.size) }
    ensures handed { buffer.new
        ≡ handed_under met at.size (read_answer (D.meaning drive.old) at.head at.number at.size)
        buffer.old (handed_over (D.meaning drive.old) at.head at.number at.size buffer.old) }
    ensures after { D.meaning drive.new
        ≡ cond (hides_all met) (D.meaning drive.old)
        (after_read (D.meaning drive.old) at.head at.number) }
{
    let Some(entry) = met else {
        return drive.read(at, buffer);
    };
    match entry.kind {
        FaultKind::NoId => Err(ReadError::NoId),
        FaultKind::NoDataMark => drive
            .read(at, &mut SectorBuffer::zeroed())
            .and(Err(ReadError::NoDataMark)),
        FaultKind::WrongBits => {
            drive.read(at, buffer)?;
            damage(buffer, at.size, entry.burst);
            Ok(())
        }
    }
}

/// A write attempt under what it meets: no ID keeps it from the drive below.
pub fn write_met<D: Drive>(
    drive: &mut D,
    met: Option<FaultEntry>,
    at: SectorAddress,
    buffer: &SectorBuffer,
) -> Result<(), WriteError>
    ensures answer { result
        ≡ cond (hides_all met) (Err write_error.NoId)
        (write_answer (D.meaning drive.old) at.head at.number at.size) }
    ensures after { D.meaning drive.new
        ≡ cond (hides_all met) (D.meaning drive.old)
        (after_write (D.meaning drive.old) at.head at.number at.size buffer.now) }
{
    if met.is_some_and(|entry| entry.kind == FaultKind::NoId) {
        return Err(WriteError::NoId);
    }
    drive.write(at, buffer)
}
