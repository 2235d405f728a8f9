//! Images of any make, over sector memory that they own.
ghost use Rattle.std.specs.Prelude.{◌<◌, length};
ghost use Rattle.drive.specs.Bounds.{measures, Bytes};
ghost use Rattle.image.specs.Image.{Admissible};

use super::make::{Floppy, Make, Winchester};
use drive::Geometry;
use std::marker::PhantomData;

mod calls;
mod opening;

/// An image over its sector memory: the cylinder under its head, and a record for each track.
#[derive(Drop)]
pub struct Image<M: Make> {
    geometry: Geometry,
    protected: bool,
    cylinder: u16,
    memory: Vec<u8>,
    make: PhantomData<M>,
    ghost fits: { Admissible (measures M.MOST_CYLINDERS M.MOST_HEADS) geometry
        (length memory.items) },
    ghost inside: { cylinder < geometry.cylinders },
    ghost bytes: { Bytes memory.items },
}

/// A Winchester image: 1 to 1,024 cylinders and 1 to 8 heads.
pub type WinchesterImage = Image<Winchester>;

/// A floppy image: 1 to 256 cylinders and 1 or 2 heads.
pub type FloppyImage = Image<Floppy>;
