//! Why an entry is refused.
ghost use Rattle.std.specs.Prelude.{◌≡◌};
ghost use Rattle.fault_table.specs.Adding.{refusal_number};

use thiserror::Error;

/// What stands against an entry, in the order of asking.
#[derive(Clone, Copy, PartialEq, Eq, Debug, Error)]
pub enum AddRefusal {
    #[error("the table has 32 entries")]
    TableFull = 10,
    #[error("the entry is out of range")]
    OutOfRange = 11,
}

impl From<AddRefusal> for u8 {
    ghost from_gives = { λ refusal number. number ≡ refusal_number refusal };

    fn from(refusal: AddRefusal) -> u8 {
        refusal as u8
    }
}
