//! A board whose parts C describes: a controller over a Winchester image under faults, and a floppy
//! image.
ghost use Rattle.std.specs.Prelude.{◌≡◌, IfOk, [], length, map};
ghost use Rattle.drive.specs.Bounds.{measures};
ghost use Rattle.task_file.specs.declared.bay.Bay.TheVariants.{Winchester1, Floppy1};
ghost use Rattle.controller.specs.Controller.{model_of};
ghost use Rattle.c_board.specs.Board.{geometry_of, entry_of, bay_model, board_model, held, fitting};

use controller::Controller;
use drive::{Drive, EmptyBay, Geometry, Place};
use either::Either;
use fault_table::{FaultEntry, FaultKind, FaultTable};
use image::{Floppy, Image, Make, Winchester, fitted};
use sector::Burst;
use std::alloc::{AllocError, Global};

/// An image's measures, as C gives them.
#[repr(C)]
#[derive(Clone, Copy)]
pub struct ImageMeasures {
    pub cylinders: u16,
    pub heads: u8,
    pub protected: bool,
    /// How many bytes of sectors a track has room for.
    pub capacity: u32,
}

/// A fault, as C gives it: its kind by its number, where a number that no kind has stands for wrong
/// bits.
#[repr(C)]
#[derive(Clone, Copy)]
pub struct PlainFault {
    pub cylinder: u16,
    pub head: u8,
    pub number: u8,
    /// 1 is no ID, 2 no data mark, and any other wrong bits.
    pub kind: u8,
    pub pattern: u8,
    pub first: u16,
    pub attempts: u16,
}

// An image, or the bay without a drive that is left where it is refused.
type Fitted<M: Make> = Either<Image<M>, EmptyBay>;

/// What is in a bay: a Winchester's under faults, or a floppy's.
pub type Unit = Either<FaultTable<Fitted<Winchester>>, Fitted<Floppy>>;

impl ImageMeasures {
    fn geometry(self) -> Geometry
        ensures { result ≡ geometry_of self }
    {
        Geometry {
            cylinders: self.cylinders,
            heads: self.heads,
            capacity: self.capacity,
        }
    }
}

impl PlainFault {
    fn entry(self) -> FaultEntry
        ensures { result ≡ entry_of self }
    {
        FaultEntry {
            place: Place {
                cylinder: self.cylinder,
                head: self.head,
                number: self.number,
            },
            kind: match self.kind {
                1 => FaultKind::NoId,
                2 => FaultKind::NoDataMark,
                _ => FaultKind::WrongBits,
            },
            burst: Burst {
                first: self.first,
                pattern: self.pattern,
            },
            attempts: self.attempts,
        }
    }
}

// The bay that an image over a copy of these bytes is made for.
fn bay<M: Make>(heap: Global, asked: ImageMeasures, bytes: &[u8]) -> Result<Fitted<M>, AllocError>
    ensures { IfOk result
        (λ b. ⟦<Fitted<M> as Drive>⟧.meaning b
        ≡ bay_model (measures M.MOST_CYLINDERS M.MOST_HEADS) asked bytes.now) }
{
    let memory = Vec::from_slice(heap, bytes)?;
    Ok(fitted(Image::<M>::new(asked.geometry(), asked.protected, memory)))
}

// The entries that faults of C make.
fn entries(heap: Global, faults: &[PlainFault]) -> Result<Vec<FaultEntry>, AllocError>
    ensures { IfOk result (λ v. v.items ≡ map entry_of faults.now) }
{
    faults.iter().map(|fault| fault.entry()).collect(heap)
}

/// A board that is made now, over copies of the bytes.
pub fn board(
    heap: Global,
    winchester: ImageMeasures,
    winchester_bytes: &[u8],
    faults: &[PlainFault],
    floppy: ImageMeasures,
    floppy_bytes: &[u8],
) -> Result<Controller<Unit>, AllocError>
    ensures { IfOk result
        (λ c. model_of ⟦<Unit as Drive>⟧.meaning c
        ≡ board_model winchester winchester_bytes.now faults.now floppy floppy_bytes.now) }
{
    let mut table = FaultTable::over(bay::<Winchester>(heap, winchester, winchester_bytes)?);
    let _taken = table.add_all(&entries(heap, faults)?);
    let floppy = bay::<Floppy>(heap, floppy, floppy_bytes)?;
    Ok(Controller::new([Either::Left(table), Either::Right(floppy)]))
}

/// Puts others of the same number in the place of some items.
#[tactic(auto, unfolding(crate::specs::Board::fitting))]
pub fn replace<T: Copy>(items: &mut [T], by: &[T])
    ensures { items.new ≡ fitting by.now items.old }
{
    if by.len() == items.len() {
        items.copy_from_slice(by);
    }
}

// What an image holds, or what came for one.
fn memory<M: Make>(bay: Fitted<M>) -> Vec<u8>
    ensures { result.items ≡ (⟦<Fitted<M> as Drive>⟧.meaning bay).memory }
{
    match bay {
        Either::Left(image) => image.into_memory(),
        Either::Right(empty) => empty.into_memory(),
    }
}

// What is left of the bytes that a bay was made over.
fn hand_back(unit: Unit, bytes: &mut [u8])
    ensures { bytes.new ≡ fitting (⟦<Unit as Drive>⟧.meaning unit).memory bytes.old }
{
    let memory = match unit {
        Either::Left(table) => memory(table.into_drive()),
        Either::Right(bay) => memory(bay),
    };
    replace(bytes, &memory);
}

/// What both images hold.
#[tactic(auto, unfolding(crate::specs::Board::held))]
pub fn give_back(board: Controller<Unit>, winchester: &mut [u8], floppy: &mut [u8])
    ensures winchester { winchester.new
        ≡ fitting (held (model_of ⟦<Unit as Drive>⟧.meaning board) Winchester1) winchester.old }
    ensures floppy { floppy.new
        ≡ fitting (held (model_of ⟦<Unit as Drive>⟧.meaning board) Floppy1) floppy.old }
{
    let [first, second] = board.into_drives();
    hand_back(first, winchester);
    hand_back(second, floppy);
}
