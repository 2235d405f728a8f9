//! Making an image, and taking it apart.
ghost use Rattle.std.specs.Prelude.{◌≡◌, IfOk, IfErr, IfNone, vec_len};
ghost use Rattle.std.specs.Result.{result_err};
ghost use Rattle.std.specs.Option.{option_map};
ghost use Rattle.drive.specs.Bounds.{measures};
ghost use Rattle.image.specs.Image.{image_model, Admissible, refusal_of};
ghost use Rattle.image.specs.Meaning.{model_of};

use super::super::make::Make;
use super::super::memory::{MOST_CAPACITY, memory_length};
use super::super::refusal::{Refusal, Refused};
use super::Image;
use drive::Geometry;
use std::marker::PhantomData;

// What stands first against an image of a make, if anything does.
fn judge<M: Make>(geometry: Geometry, length: usize) -> Option<Refusal>
    ensures answer { result ≡ refusal_of (measures M.MOST_CYLINDERS M.MOST_HEADS) geometry length }
    ensures granted { IfNone result
        (Admissible (measures M.MOST_CYLINDERS M.MOST_HEADS) geometry length) }
{
    if geometry.cylinders < 1 || geometry.cylinders > M::MOST_CYLINDERS {
        return Some(Refusal::Cylinders);
    }
    if geometry.heads < 1 || geometry.heads > M::MOST_HEADS {
        return Some(Refusal::Heads);
    }
    let capacity = geometry.capacity;
    if capacity < 128 || capacity > MOST_CAPACITY || capacity % 128 != 0 {
        return Some(Refusal::Capacity);
    }
    if length != memory_length(geometry) {
        return Some(Refusal::Memory);
    }
    None
}

impl<M: Make> Image<M> {
    /// An image of these measures over this memory, at cylinder 0. Refused, in this order: the
    /// cylinders, the heads, the capacity, and a memory that is not as long as the records.
    pub fn new(geometry: Geometry, protected: bool, memory: Vec<u8>) -> Result<Image<M>, Refused>
        ensures refusal { option_map (λ e. e.refusal) (result_err result)
            ≡ refusal_of (measures M.MOST_CYLINDERS M.MOST_HEADS) geometry (vec_len memory) }
        ensures refused { IfErr result (λ e. e.memory ≡ memory) }
        ensures made { IfOk result
            (λ d. model_of d ≡ image_model geometry protected 0 memory.items) }
    {
        // The memory goes back with the refusal.
        if let Some(refusal) = judge::<M>(geometry, memory.len()) {
            return Err(Refused { refusal, memory });
        }
        Ok(Image {
            geometry,
            protected,
            cylinder: 0,
            memory,
            make: PhantomData,
        })
    }

    /// The sector memory, as it is now.
    pub fn into_memory(self) -> Vec<u8>
        ensures { result.items ≡ (model_of self).memory }
    {
        self.memory
    }
}
