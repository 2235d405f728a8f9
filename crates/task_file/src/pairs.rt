//! The pairs of a format's bytes, both ways: mark, then number.
ghost use Rattle.std.specs.Prelude.{◌≡◌, ℕ, ◌+◌, ◌*◌, ◌≤◌, take};
ghost use Rattle.task_file.specs.Pairs.{id_at, ids_of, format_pair};

use drive::SectorId;
use std::array;

/// The sectors that the pairs of a format's bytes give, mark then number: all 64 that a track can
/// have.
pub fn format_ids(bytes: &[u8; 1024]) -> [SectorId; 64]
    ensures { (n : ℕ) → n ≤ 64 → take n result ≡ ids_of bytes.now n }
{
    array::from_fn(|i| SectorId {
        number: bytes[2 * i + 1],
        bad: bytes[2 * i] >= 128,
    })
}

/// The pair that gives a sector; its mark is 80h for a bad one, and else 0.
pub fn format_pair(id: SectorId) -> [u8; 2]
    ensures pair { result ≡ format_pair id }
    ensures back { id_at result 0 ≡ id }
{
    [if id.bad { 0x80 } else { 0 }, id.number]
}
