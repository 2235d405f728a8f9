//! The search for the burst that a difference tells of.
ghost use Rattle.std.specs.Prelude.{◌≡◌, ◌-◌, ◌/◌, ◌%◌, ◌^◌, cond, MatchOption, nat_eq, nat_lt};
ghost use Rattle.sector.specs.Bits.{binary, first_bits};
ghost use Rattle.check_code.specs.Code.{ecc_code, step};
ghost use Rattle.check_code.specs.Aligned.{steps};
ghost use Rattle.burst.specs.Search.{bits_of, first_burst, NoneFits, Fits};

use check_code::{CheckCode, Ecc};
use sector::{Burst, SizeCode};

// X^28 + X^26 + X^19 + X^17 + X^10 + X^6 + X^2 + 1, bit i for X^i: the polynomial without X^32,
// which falls out of the register.
const DIVISOR: u32 = 0x140a_0445;

// One shift of the register, less the polynomial where its top bit falls out.
#[tactic(auto, using(crate::proofs::Shift::shift_is))]
fn shift(register: u32) -> u32
    ensures { result ≡ step ecc_code register }
{
    (register << 1) ^ (DIVISOR * (register >> 31))
}

// Sixteen shifts at once, which two bytes of zeros make: the lower half moves up, and the tables
// shift the upper one.
#[tactic(auto, using(crate::proofs::Shift::two_bytes_is))]
fn shifted_by_two(register: u32) -> u32
    ensures { result ≡ steps ecc_code 16 register }
{
    (register << 16) ^ Ecc::shifted_by_four(register >> 16)
}

// The register from which as many shifts lead to 1 as a sector has bits, less twenty.
fn one_taken_back(size: SizeCode) -> u32
    ensures { steps ecc_code (bits_of size - 20) result ≡ 1 }
{
    match size {
        SizeCode::Bytes128 => 0xe5a2_aa4f,
        SizeCode::Bytes256 => 0xe823_00e0,
        SizeCode::Bytes512 => 0x2abd_76bf,
        SizeCode::Bytes1024 => 0x6d66_4409,
    }
}

// The register from which as many shifts lead to the difference. What shifts make of a sum is the
// sum of what they make of each part, so it is put together from that of 1, bit by bit from the
// top.
fn taken_back(difference: u32, size: SizeCode) -> u32
    ensures { steps ecc_code (bits_of size - 20) result ≡ difference }
{
    let one = one_taken_back(size);
    let mut register = 0;
    for bit in (0..32u32).rev() {
        register = shift(register) ^ (one * ((difference >> bit) % 2));
    }
    register
}

// A pattern of five bits as the register sees it, its first bit at the top.
#[tactic(auto, using(crate::proofs::Shift::mirror_is))]
fn mirrored(pattern: u8) -> u32
    ensures { result ≡ first_bits 5 (binary pattern) }
{
    u32::from(pattern.reverse_bits() >> 3)
}

// How many first bits a register may show that is taken back to the last bit of a pair of bytes:
// all sixteen of the pair, or none where a bit above the low twenty is set, so that most pairs are
// passed at once.
fn firsts_seen(register: u32) -> u16
    ensures { result ≡ cond (nat_lt register (2 ^ 20)) 16 0 }
{
    if register < 1 << 20 { 16 } else { 0 }
}

// How many of the sixteen odd patterns a register may show at its low end: none where its top bit
// is not a mirrored pattern's.
fn halves_seen(register: u32) -> u8
    ensures { result ≡ cond (nat_eq (register / 16) 1) 16 0 }
{
    if register / 16 == 1 { 16 } else { 0 }
}

// Whether a pattern has no bit past so many.
fn ends_within(pattern: u8, room: u16) -> bool
    ensures { result ≡ nat_lt pattern (2 ^ room) }
{
    room >= 8 || pattern >> room == 0
}

/// The burst with the smallest first bit, and then the smallest pattern, whose amount in a sector
/// of this size is the difference; `None` where no burst has it.
pub fn find_burst(difference: u32, size: SizeCode) -> Option<Burst>
    ensures first { result ≡ first_burst size difference }
    ensures only { MatchOption result (NoneFits size difference) (λ b. Fits size difference b) }
{
    let bits = 8 * size.bytes() as u16 + 32;
    let mut register = taken_back(difference, size);
    let mut next = shifted_by_two(register);
    let mut found = None;
    // This pair's register and the next one's go along, so that neither waits for what the tables
    // make of the other.
    'search: for pair in 0..bits / 16 {
        for bit in 0..firsts_seen(register) {
            let first = 16 * pair + bit;
            let after = 15 - bit;
            for half in 0..halves_seen(register >> after) {
                let pattern = 2 * half + 1;
                if register == mirrored(pattern) << after && ends_within(pattern, bits - first) {
                    found = Some(Burst { first, pattern });
                    break 'search;
                }
            }
        }
        (register, next) = (next, Ecc::shifted_by_four(register));
    }
    found
}
