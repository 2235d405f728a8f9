//! The Winchester that the program keeps its sheet on.
ghost use Rattle.std.specs.Prelude.{IfOk};
ghost use Rattle.program_parts.specs.Winchester.{IsBlank};

use anyhow::anyhow;
use drive::Geometry;
use image::{Refusal, WinchesterImage, blank_memory};
use std::alloc::Global;

// What stands against an image of these measures, whatever its memory.
fn refusal_of(heap: Global, geometry: Geometry) -> Option<Refusal> {
    match WinchesterImage::new(geometry, false, Vec::new(heap)) {
        Ok(_) => None,
        Err(refused) => match refused.refusal {
            Refusal::Memory => None,
            why => Some(why),
        },
    }
}

// The error that tells of a refusal, by its number and in words.
fn told(heap: Global, why: Refusal) -> anyhow::Result<anyhow::Error> {
    let number = u8::from(why);
    Ok(anyhow!(format!(in heap; "image refused: {number}, {why}")?))
}

/// An image of these measures over zeros, or why it is refused. The measures are judged before
/// memory is asked for, since wrong ones may ask for more than there is.
pub fn winchester(rt: &HostRuntime, geometry: Geometry) -> anyhow::Result<WinchesterImage>
    ensures { IfOk result (λ image. IsBlank geometry image) }
{
    if let Some(why) = refusal_of(rt.alloc(), geometry) {
        return Err(told(rt.alloc(), why)?);
    }
    let memory = blank_memory(rt.alloc(), geometry)?;
    match WinchesterImage::new(geometry, false, memory) {
        Ok(image) => Ok(image),
        Err(refused) => Err(told(rt.alloc(), refused.refusal)?),
    }
}
