//! An image as a drive.
#![tactic(auto, unfolding(drive::specs::Calls::step_answer, // what steps answer
drive::specs::Calls::stepped_in, drive::specs::Calls::stepped_out, // and leave
drive::specs::Calls::read_answer, drive::specs::Calls::handed_over, // reads
drive::specs::Calls::after_read, drive::specs::Calls::write_answer, // writes
drive::specs::Calls::after_write, drive::specs::Calls::format_answer, // formats
drive::specs::Calls::after_format))]

ghost use Rattle.std.specs.Prelude.{◌≡◌, ◌+◌, ◌*◌, ◌<◌, ◌≤◌, length, IfSome, OnOk};
ghost use Rattle.drive.specs.Model.{slot_of};
ghost use Rattle.drive.specs.Calls.{track_under, format_answer};
ghost use Rattle.sector.specs.Sizes.{bytes_of};
ghost use Rattle.image.specs.Record.{Slot};
ghost use Rattle.image.specs.Image.{record_start, record_of};
ghost use Rattle.image.specs.Meaning.{model_of};
ghost use Rattle.image.specs.Holds.{image_bounded};

use super::super::make::Make;
use super::super::record::{HEADER, find_sector, format_track, read_slot, write_slot};
use super::Image;
use drive::{
    Drive, FormatError, Geometry, MOST_SECTORS, NotReady, ReadError, SectorAddress, SectorBuffer,
    SectorId, WriteError,
};
use sector::SizeCode;
use std::ops::Range;

impl<M: Make> Image<M> {
    // Where in the memory the record of a track under the head stands.
    fn record_range(&self, head: u8) -> Range<usize>
        requires { head < self.now.geometry.heads }
        ensures start { result.start ≡ record_start self.now.geometry self.now.cylinder head }
        ensures end { result.end ≡ result.start + (386 + self.now.geometry.capacity) }
        ensures inside { result.end ≤ length self.now.memory.items }
    {
        let place = self.cylinder as usize * self.geometry.heads as usize + head as usize;
        let length = HEADER + self.geometry.capacity as usize;
        let start = place * length;
        start..start + length
    }

    // The record of a track under the head.
    fn record_under(&self, head: u8) -> &[u8]
        requires { head < self.now.geometry.heads }
        ensures { (386 ≤ length result.now) × (result.now
            ≡ record_of self.now.geometry self.now.cylinder head self.now.memory.items) }
    {
        &self.memory[self.record_range(head)]
    }

    // The slot of the first sector with this number and size on the track of a head.
    fn find(&self, at: SectorAddress) -> Option<usize>
        ensures slot { result
            ≡ slot_of (track_under (model_of self.now) at.head) at.number at.size }
        ensures found { IfSome result
            (λ k. (at.head < self.now.geometry.heads)
            × Slot (record_of self.now.geometry self.now.cylinder at.head self.now.memory.items)
            at.size k) }
    {
        if at.head >= self.geometry.heads {
            return None;
        }
        find_sector(self.record_under(at.head), at.number, at.size)
    }

    // What stands first against a format, or that nothing does.
    fn judge_format(&self, head: u8, ids: &[SectorId], size: SizeCode) -> Result<(), FormatError>
        ensures answer { result ≡ format_answer (model_of self.now) head ids.now size }
        ensures granted { OnOk result
            ((head < self.now.geometry.heads) × (1 ≤ length ids.now) × (length ids.now ≤ 64)
            × (length ids.now * bytes_of size ≤ self.now.geometry.capacity)) }
    {
        if self.protected {
            return Err(FormatError::Protected);
        }
        if head >= self.geometry.heads {
            return Err(FormatError::BadHead);
        }
        if ids.is_empty() || ids.len() > MOST_SECTORS {
            return Err(FormatError::BadCount);
        }
        if ids.len() * size.bytes() > self.geometry.capacity as usize {
            return Err(FormatError::TooLong);
        }
        Ok(())
    }
}

impl<M: Make> Drive for Image<M> {
    const MOST_CYLINDERS: u16 = M::MOST_CYLINDERS;

    ghost MOST_CYLINDERS = { M.MOST_CYLINDERS };

    const MOST_HEADS: u8 = M::MOST_HEADS;

    ghost MOST_HEADS = { M.MOST_HEADS };

    ghost meaning = { λ d. model_of d };

    ghost limits = { M.limits };

    ghost bounded = { λ d. image_bounded d };

    fn geometry(&self) -> Geometry {
        self.geometry
    }

    fn is_ready(&self) -> bool {
        true
    }

    fn is_protected(&self) -> bool {
        self.protected
    }

    fn cylinder(&self) -> u16 {
        self.cylinder
    }

    fn step_in(&mut self) -> Result<(), NotReady> {
        if self.cylinder + 1 < self.geometry.cylinders {
            self.cylinder += 1;
        }
        Ok(())
    }

    fn step_out(&mut self) -> Result<(), NotReady> {
        if self.cylinder > 0 {
            self.cylinder -= 1;
        }
        Ok(())
    }

    fn read(&mut self, at: SectorAddress, buffer: &mut SectorBuffer) -> Result<(), ReadError> {
        let Some(slot) = self.find(at) else {
            return Err(ReadError::NoId);
        };
        read_slot(self.record_under(at.head), slot, at.size, buffer)
    }

    fn write(&mut self, at: SectorAddress, buffer: &SectorBuffer) -> Result<(), WriteError> {
        if self.protected {
            return Err(WriteError::Protected);
        }
        let Some(slot) = self.find(at) else {
            return Err(WriteError::NoId);
        };
        let range = self.record_range(at.head);
        write_slot(&mut self.memory[range], slot, at.size, buffer)
    }

    fn format(
        &mut self,
        head: u8,
        ids: &[SectorId],
        size: SizeCode,
        check: [u8; 4],
    ) -> Result<(), FormatError> {
        self.judge_format(head, ids, size)?;
        let range = self.record_range(head);
        format_track(&mut self.memory[range], ids, size, check);
        Ok(())
    }
}
