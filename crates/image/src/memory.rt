//! The sector memory that an image asks for.
ghost use Rattle.std.specs.Prelude.{◌≡◌, IfOk, replicate};
ghost use Rattle.image.specs.Image.{memory_length};

use super::record::HEADER;
use drive::Geometry;
use std::alloc::{AllocError, Global};

// The most bytes of sectors that a track has room for.
pub(crate) const MOST_CAPACITY: u32 = 65_536;

// How many bytes an image of these measures asks for: a record for each track. More room than a
// track can have counts as the most.
pub(crate) fn memory_length(geometry: Geometry) -> usize
    ensures { result ≡ memory_length geometry }
{
    let tracks = geometry.cylinders as usize * geometry.heads as usize;
    tracks * (HEADER + geometry.capacity.min(MOST_CAPACITY) as usize)
}

/// Zeros as long as the memory of an image of these measures, which are tracks without sectors. A
/// capacity above 65,536 counts as 65,536.
pub fn blank_memory(heap: Global, geometry: Geometry) -> Result<Vec<u8>, AllocError>
    ensures { IfOk result (λ v. v.items ≡ replicate (memory_length geometry) 0) }
{
    vec![in heap; 0u8; memory_length(geometry)]
}
