//! Why an image is refused, and what comes back of it.
ghost use Rattle.std.specs.Prelude.{◌≡◌};
ghost use Rattle.image.specs.Image.{refusal_number, bay_of};

use drive::{Drive, EmptyBay};
use either::Either;
use thiserror::Error;

/// What is out of range, in the order of asking.
#[derive(Clone, Copy, PartialEq, Eq, Debug, Error)]
pub enum Refusal {
    #[error("the make has no such number of cylinders")]
    Cylinders = 6,
    #[error("the make has no such number of heads")]
    Heads = 7,
    #[error("a track's capacity is a multiple of 128, from 128 to 65536")]
    Capacity = 8,
    #[error("the memory does not have the length of the tracks' records")]
    Memory = 9,
}

impl From<Refusal> for u8 {
    ghost from_gives = { λ refusal number. number ≡ refusal_number refusal };

    fn from(refusal: Refusal) -> u8 {
        refusal as u8
    }
}

/// A refused image: why, and the memory that came for it, untouched.
#[derive(Debug, Drop, Error)]
#[error("{refusal}")]
pub struct Refused {
    pub refusal: Refusal,
    pub memory: Vec<u8>,
}

/// The image that was made, or a bay without a drive, with the memory that came for one.
pub fn fitted<D: Drive>(made: Result<D, Refused>) -> Either<D, EmptyBay>
    ensures { result ≡ bay_of made }
{
    match made {
        Ok(drive) => Either::Left(drive),
        Err(refused) => Either::Right(EmptyBay::new(refused.memory)),
    }
}
