//! Wrong bits, and inverting them.
ghost use Rattle.std.specs.Prelude.{◌≡◌, ◌+◌, nat_eq};
ghost use Rattle.sector.specs.Bits.{inverted, set_of, from_bit};

use std::fmt;

/// A burst by its first bit, counted from the top bit of the sector's first byte on, and a pattern
/// whose bit i marks bit first + i.
#[derive(Clone, Copy, PartialEq, Eq, Debug)]
pub struct Burst {
    pub first: u16,
    pub pattern: u8,
}

impl fmt::Display for Burst {
    fn fmt<W: fmt::Write>(&self, f: &mut fmt::Formatter<W>) -> fmt::Result {
        let Burst { first, pattern } = self;
        write!(f, "burst at bit {first:>4}, pattern {pattern:05b}")
    }
}

// Inverts one bit of the sector, where it lies in `part`, the sector's bytes from bit `start` on.
fn invert_bit(part: &mut [u8], start: usize, bit: usize)
    ensures { part.new ≡ inverted (λ i. nat_eq (start + i) bit) part.old }
{
    if bit < start {
        return;
    }
    let i = bit - start;
    if i / 8 < part.len() {
        part[i / 8] ^= 0x80 >> (i % 8);
    }
}

/// Inverts those bits of a burst that lie in `part`, the sector's bytes from bit `start` on.
pub fn invert_burst(part: &mut [u8], start: u16, burst: Burst)
    ensures { part.new ≡ inverted (from_bit start (set_of burst)) part.old }
{
    for k in 0..8u16 {
        if (burst.pattern >> k) % 2 == 1 {
            invert_bit(part, start as usize, burst.first as usize + k as usize);
        }
    }
}
