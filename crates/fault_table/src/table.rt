//! The fault table.
ghost use Rattle.std.specs.Prelude.{◌≡◌, ◌+◌, [], length};
ghost use Rattle.fault_table.specs.Adding.{add_answer, after_add, all_added};
ghost use Rattle.fault_table.specs.Faults.{with_faults, entries_in, drive_under, table_model};
ghost use Rattle.std.proofs.Common.{rules};

use super::attempts::{read_met, write_met};
use super::entry::{Entries, FaultEntry, spend};
use super::refusal::AddRefusal;
use drive::{
    Drive, FormatError, Geometry, NotReady, Place, ReadError, SectorAddress, SectorBuffer,
    SectorId, WriteError,
};
use sector::SizeCode;

/// A drive under faults. Entries of a place apply one after another, in the order of adding, each
/// for its number of attempts. Used-up ones stay. Clauses name its meaning by `table_model`.
#[derive(Drop)]
pub struct FaultTable<D: Drive> {
    drive: D,
    faults: Entries,
}

impl<D: Drive> FaultTable<D> {
    /// A drive under no faults yet.
    pub fn over(drive: D) -> FaultTable<D>
        ensures drive { drive_under result ≡ drive }
        ensures entries { entries_in result ≡ [] }
        ensures meaning { table_model D.meaning result ≡ D.meaning drive }
    {
        FaultTable {
            drive,
            faults: Entries::new(),
        }
    }

    /// The drive below, as it is now.
    pub fn into_drive(self) -> D
        ensures { result ≡ drive_under self }
    {
        let FaultTable { drive, faults: _ } = self;
        drive
    }

    /// Adds an entry behind the others. Refused, in this order: where there are 32, and where it is
    /// out of range.
    pub fn add(&mut self, entry: FaultEntry) -> Result<(), AddRefusal>
        ensures answer { result ≡ add_answer (entries_in self.old) entry }
        ensures entries { entries_in self.new ≡ after_add (entries_in self.old) entry }
        ensures drive { drive_under self.new ≡ drive_under self.old }
        ensures meaning { table_model D.meaning self.new
            ≡ with_faults (after_add (entries_in self.old) entry)
            (D.meaning (drive_under self.old)) }
    {
        if self.faults.is_full() {
            return Err(AddRefusal::TableFull);
        }
        if !entry.is_in_range() {
            return Err(AddRefusal::OutOfRange);
        }
        self.faults.push(entry);
        Ok(())
    }

    /// Adds these entries one after another behind the others, and passes over those that are
    /// refused; how many were taken.
    pub fn add_all(&mut self, entries: &[FaultEntry]) -> usize
        ensures answer { length (entries_in self.new) ≡ length (entries_in self.old) + result }
        ensures entries { entries_in self.new ≡ all_added (entries_in self.old) entries.now }
        ensures drive { drive_under self.new ≡ drive_under self.old }
        ensures meaning { table_model D.meaning self.new
            ≡ with_faults (all_added (entries_in self.old) entries.now)
            (D.meaning (drive_under self.old)) }
    {
        let before = self.faults.len();
        for entry in entries {
            let _taken = self.add(*entry);
        }
        self.faults.len() - before
    }

    // The place that an attempt is made at.
    fn place_of(&self, at: SectorAddress) -> Place
        ensures { result ≡ record {
          cylinder = (D.meaning (drive_under self.now)).cylinder;
          head = at.head;
          number = at.number;
        } }
    {
        Place {
            cylinder: self.drive.cylinder(),
            head: at.head,
            number: at.number,
        }
    }
}

// Calls that no entry changes are handed to the drive below.
#[tactic(auto, using(crate::proofs::Under::attempts), // attempts under entries
unfolding(drive::specs::Calls::step_answer, // what steps answer
drive::specs::Calls::stepped_in, drive::specs::Calls::stepped_out, // and leave
drive::specs::Calls::read_answer, drive::specs::Calls::handed_over, // reads
drive::specs::Calls::after_read, drive::specs::Calls::write_answer, // writes
drive::specs::Calls::after_write, drive::specs::Calls::format_answer, // formats
drive::specs::Calls::after_format))]
impl<D: Drive> Drive for FaultTable<D> {
    const MOST_CYLINDERS: u16 = D::MOST_CYLINDERS;

    ghost MOST_CYLINDERS = { D.MOST_CYLINDERS };

    const MOST_HEADS: u8 = D::MOST_HEADS;

    ghost MOST_HEADS = { D.MOST_HEADS };

    ghost meaning = { table_model D.meaning };

    ghost limits = { Prim.search rules };

    ghost bounded = { Prim.search rules };

    fn geometry(&self) -> Geometry {
        self.drive.geometry()
    }

    fn is_ready(&self) -> bool {
        self.drive.is_ready()
    }

    fn is_protected(&self) -> bool {
        self.drive.is_protected()
    }

    fn cylinder(&self) -> u16 {
        self.drive.cylinder()
    }

    fn step_in(&mut self) -> Result<(), NotReady> {
        self.drive.step_in()
    }

    fn step_out(&mut self) -> Result<(), NotReady> {
        self.drive.step_out()
    }

    fn read(&mut self, at: SectorAddress, buffer: &mut SectorBuffer) -> Result<(), ReadError> {
        if !self.drive.is_ready() {
            return Err(ReadError::NotReady);
        }
        let place = self.place_of(at);
        let met = spend(&mut self.faults, place);
        read_met(&mut self.drive, met, at, buffer)
    }

    fn write(&mut self, at: SectorAddress, buffer: &SectorBuffer) -> Result<(), WriteError> {
        if !self.drive.is_ready() {
            return Err(WriteError::NotReady);
        }
        if self.drive.is_protected() {
            return Err(WriteError::Protected);
        }
        let place = self.place_of(at);
        let met = spend(&mut self.faults, place);
        write_met(&mut self.drive, met, at, buffer)
    }

    fn format(
        &mut self,
        head: u8,
        ids: &[SectorId],
        size: SizeCode,
        check: [u8; 4],
    ) -> Result<(), FormatError> {
        self.drive.format(head, ids, size, check)
    }
}
