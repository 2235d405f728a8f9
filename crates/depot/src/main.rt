//! The depot's program: reads a cue sheet from standard input and writes it to a Winchester image
//! as a console does, through the eight registers of one controller. An earlier show leaves a read
//! half done. Then the firing script is read back through the same registers, under faults laid
//! over the drive, and compared with the sheet line by line.
//!
//! Three arguments, if given, are the image's cylinders, heads and track capacity.
//!
//! Promised here: it is safe and ends. Each library call that it makes has a contract of its own;
//! what it reads and prints is tested on the sheet in `stdin`, against `stdout`.
#![tactic(auto)]

mod console;
mod faults;
mod fetching;
mod keeping;
mod outcome;
mod registers;

use console::Console;
use controller::Controller;
use drive::{EmptyBay, Geometry};
use either::Either;
use fault_table::FaultTable;
use faults::FAULTS;
use fetching::{fetch, leave_half};
use image::{FloppyImage, WinchesterImage, blank_memory, fitted};
use keeping::{prepare, restore, store};
use program_parts::{asked_for, lay, print_comparison, read_sheet, winchester};
use records::{Grid, RECORD};
use std::alloc::{AllocError, Global};
use task_file::BAYS;

// A floppy, or a bay without one.
type Floppy = Either<FloppyImage, EmptyBay>;

// What stands in a bay: the Winchester under faults, or a floppy.
type Unit = Either<FaultTable<WinchesterImage>, Floppy>;

// The floppy's measures.
const FLOPPY: Geometry = Geometry {
    cylinders: 40,
    heads: 2,
    capacity: 4096,
};

// A blank floppy in its bay.
fn floppy(heap: Global) -> Result<Floppy, AllocError> {
    let memory = blank_memory(heap, FLOPPY)?;
    Ok(fitted(FloppyImage::new(FLOPPY, false, memory)))
}

// Takes the sheet to the drive and the script from it, with one controller from first to last.
fn run(rt: &HostRuntime) -> anyhow::Result<()> {
    let geometry = asked_for(rt)?;
    let image = winchester(rt, geometry)?;
    let sheet = read_sheet(rt)?;
    let grid = Grid::from(geometry);
    let places = grid.places(rt.alloc(), sheet.len().div_ceil(RECORD))?;
    let mut damaged = FaultTable::over(image);
    lay(rt, &mut damaged, &places, FAULTS)?;
    let units: [Unit; BAYS] = [Either::Left(damaged), Either::Right(floppy(rt.alloc())?)];
    let controller = Controller::new(units);
    let mut console = Console::new(controller, rt.alloc(), grid);
    prepare(rt, &mut console)?;
    store(rt, &mut console, &places, &sheet)?;
    leave_half(rt, &mut console)?;
    restore(rt, &mut console, "site")?;
    let mut script = fetch(rt, &mut console, &places)?;
    script.truncate(sheet.len());
    print_comparison(rt, &sheet, &script)?;
    Ok(())
}

fn main(rt: HostRuntime) -> anyhow::Result<()> {
    run(&rt)
}
