//! A drive of either of two makes.
ghost use Rattle.std.specs.Prelude.{max};
ghost use Rattle.either.specs.declared.Either.TheVariants.{Left, Right};
ghost use Rattle.std.proofs.Common.{rules};

use super::answers::{FormatError, NotReady, ReadError, SectorId, WriteError};
use super::buffer::SectorBuffer;
use super::drive::Drive;
use super::geometry::Geometry;
use super::place::SectorAddress;
use either::{Either, for_both};
use sector::SizeCode;

// Each call goes to the drive that is there.
impl<L: Drive, R: Drive> Drive for Either<L, R> {
    const MOST_CYLINDERS: u16 = if L::MOST_CYLINDERS < R::MOST_CYLINDERS {
        R::MOST_CYLINDERS
    } else {
        L::MOST_CYLINDERS
    };

    ghost MOST_CYLINDERS = { max L.MOST_CYLINDERS R.MOST_CYLINDERS };

    const MOST_HEADS: u8 = if L::MOST_HEADS < R::MOST_HEADS {
        R::MOST_HEADS
    } else {
        L::MOST_HEADS
    };

    ghost MOST_HEADS = { max L.MOST_HEADS R.MOST_HEADS };

    ghost meaning = { λ e. elim e [ Left l ↦ L.meaning l | Right r ↦ R.meaning r ] };

    ghost limits = { Prim.search rules };

    ghost bounded = { Prim.search rules };

    fn geometry(&self) -> Geometry {
        for_both!(self, drive => drive.geometry())
    }

    fn is_ready(&self) -> bool {
        for_both!(self, drive => drive.is_ready())
    }

    fn is_protected(&self) -> bool {
        for_both!(self, drive => drive.is_protected())
    }

    fn cylinder(&self) -> u16 {
        for_both!(self, drive => drive.cylinder())
    }

    fn step_in(&mut self) -> Result<(), NotReady> {
        for_both!(self, drive => drive.step_in())
    }

    fn step_out(&mut self) -> Result<(), NotReady> {
        for_both!(self, drive => drive.step_out())
    }

    fn read(&mut self, at: SectorAddress, buffer: &mut SectorBuffer) -> Result<(), ReadError> {
        for_both!(self, drive => drive.read(at, buffer))
    }

    fn write(&mut self, at: SectorAddress, buffer: &SectorBuffer) -> Result<(), WriteError> {
        for_both!(self, drive => drive.write(at, buffer))
    }

    fn format(
        &mut self,
        head: u8,
        ids: &[SectorId],
        size: SizeCode,
        check: [u8; 4],
    ) -> Result<(), FormatError> {
        for_both!(self, drive => drive.format(head, ids, size, check))
    }
}
