//! Where records lie on a drive.
ghost use Rattle.std.specs.Prelude.{◌≡◌, ◌<◌, IfOk, IsErrOf};
ghost use Rattle.records.specs.Places.{grid_of, records_in, place_of, ArePlaces};

use super::bytes::RECORD;
use drive::{Geometry, MOST_SECTORS, Place};
use std::alloc::Global;
use thiserror::Error;

/// A drive's cylinders and heads, and how many records each track has, numbered from 0.
#[derive(Clone, Copy, PartialEq, Eq, Debug)]
pub struct Grid {
    pub cylinders: u16,
    pub heads: u8,
    /// At most 64.
    pub sectors: u8,
}

/// Why records have no places.
#[derive(Debug, Drop, Error)]
pub enum PlacesError {
    #[error("the sheet is longer than the drive")]
    TooLong,
    #[error("out of memory for the places of records")]
    OutOfMemory,
}

impl From<Geometry> for Grid {
    // As many records on each track as it has room for.
    ghost from_gives = { λ geometry grid. grid ≡ grid_of geometry };

    fn from(geometry: Geometry) -> Grid {
        Grid {
            cylinders: geometry.cylinders,
            heads: geometry.heads,
            sectors: (geometry.capacity as usize / RECORD).min(MOST_SECTORS) as u8,
        }
    }
}

impl Grid {
    /// The place of a record, counted from 0 sector by sector, then head by head, then cylinder by
    /// cylinder; `None` past the last.
    pub fn place(self, index: usize) -> Option<Place>
        ensures { result ≡ place_of self index }
    {
        let heads = self.heads as usize;
        let sectors = self.sectors as usize;
        if index >= self.cylinders as usize * (heads * sectors) {
            return None;
        }
        let cylinder = (index / (heads * sectors)) as u16;
        let head = (index / sectors % heads) as u8;
        let number = (index % sectors) as u8;
        Some(Place {
            cylinder,
            head,
            number,
        })
    }

    /// The places of the first so many records, in order.
    pub fn places(self, heap: Global, records: usize) -> Result<Vec<Place>, PlacesError>
        ensures places { IfOk result (λ v. ArePlaces self records v.items) }
        ensures too_long { IsErrOf result PlacesError.TooLong → records_in self < records }
    {
        let mut places = Vec::new(heap);
        for index in 0..records {
            let place = self.place(index).ok_or(PlacesError::TooLong)?;
            places.push(place).map_err(|_| PlacesError::OutOfMemory)?;
        }
        Ok(places)
    }
}
