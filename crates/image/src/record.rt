//! Track records: a count, a size code, 64 pairs of number and mark, 64 times four check bytes, and
//! the sectors' bytes, in order.
ghost use Rattle.std.specs.Prelude.{◌≡◌, ℕ, ◌+◌, ◌*◌, ◌<◌, ◌≤◌, true, false, length, take, IfSome, MatchOption, Err, if◌then◌else◌, nat_eq};
ghost use Rattle.std.specs.List.{flat_map, list_all, position_from};
ghost use Rattle.std.specs.Option.{option_map};
ghost use Rattle.drive.specs.Model.{slot_of, intact};
ghost use Rattle.drive.specs.Bounds.{Bytes};
ghost use Rattle.drive.specs.Calls.{delivered, done};
ghost use Rattle.drive.specs.declared.answers.ReadError.TheVariants as read_error;
ghost use Rattle.drive.specs.declared.answers.WriteError.TheVariants as write_error;
ghost use Rattle.sector.specs.Sizes.{bytes_of};
ghost use Rattle.image.specs.Record.{formatted, size_in, is_marked, is_named, pairs_in, mark_at, bad_mark, sector_at, track_in, Slot, with_sector, pair_of, with_format};
ghost use Rattle.image.specs.Parts.{over};

use drive::{MOST_SECTORS, ReadError, SectorBuffer, SectorId, WriteError};
use sector::SizeCode;
use std::ops::Range;

// The bytes of a record before the sectors' own.
pub(crate) const HEADER: usize = 386;

const BAD_MARK: u8 = 0x80;

// Whether each of these marks is 0 or 80h.
fn marks_fit(pairs: &[[u8; 2]]) -> bool
    ensures { result ≡ list_all is_marked pairs.now }
{
    pairs.iter().all(|[_, mark]| matches!(*mark, 0 | BAD_MARK))
}

// The size of the sectors, and a pair of number and mark for each, where the record holds a track.
fn sectors(track: &[u8]) -> Option<(SizeCode, &[[u8; 2]])>
    requires { 386 ≤ length track.now }
    ensures { MatchOption result (formatted track.now ≡ false)
        (λ held. (formatted track.now ≡ true) × (held.0 ≡ size_in track.now)
        × (held.1.now ≡ pairs_in track.now)) }
{
    let size = SizeCode::from_code(track[1]);
    let count = track[0] as usize;
    if count < 1 || count > MOST_SECTORS || track[1] > 3 {
        return None;
    }
    let (pairs, _) = track[2..2 + 2 * count].as_chunks::<2>();
    if count * size.bytes() <= track.len() - HEADER && marks_fit(pairs) {
        Some((size, pairs))
    } else {
        None
    }
}

// Where the first of these pairs with the number stands.
fn first_named(pairs: &[[u8; 2]], number: u8) -> Option<usize>
    ensures { result ≡ position_from (is_named number) 0 pairs.now }
{
    pairs.iter().position(|[named, _]| *named == number)
}

// The slot of the first sector with this number and size.
pub(crate) fn find_sector(track: &[u8], number: u8, size: SizeCode) -> Option<usize>
    requires { 386 ≤ length track.now }
    ensures slot { result ≡ slot_of (track_in track.now) number size }
    ensures found { IfSome result (λ k. Slot track.now size k) }
{
    let (held, pairs) = sectors(track)?;
    if held == size {
        first_named(pairs, number)
    } else {
        None
    }
}

// Where the bytes of the sector in a slot stand.
fn bytes_range(slot: usize, size: SizeCode) -> Range<usize>
    requires { slot < 64 }
    ensures start { result.start ≡ 386 + slot * bytes_of size }
    ensures end { result.end ≡ result.start + bytes_of size }
{
    let start = HEADER + slot * size.bytes();
    start..start + size.bytes()
}

// Where its check bytes stand.
fn check_range(slot: usize) -> Range<usize>
    requires { slot < 64 }
    ensures start { result.start ≡ 130 + 4 * slot }
    ensures end { result.end ≡ result.start + 4 }
{
    let start = 130 + 4 * slot;
    start..start + 4
}

// Reads the sector in a slot, unless it is marked bad.
pub(crate) fn read_slot(
    track: &[u8],
    slot: usize,
    size: SizeCode,
    buffer: &mut SectorBuffer,
) -> Result<(), ReadError>
    requires { Slot track.now size slot }
    ensures answer { result
        ≡ (if nat_eq (mark_at track.now slot) bad_mark then Err read_error.BadBlock else done) }
    ensures handed { buffer.new
        ≡ (if nat_eq (mark_at track.now slot) bad_mark
        then buffer.old
        else delivered intact (sector_at track.now slot) buffer.old) }
{
    if track[3 + 2 * slot] == BAD_MARK {
        return Err(ReadError::BadBlock);
    }
    buffer.bytes[..size.bytes()].copy_from_slice(&track[bytes_range(slot, size)]);
    buffer.check.copy_from_slice(&track[check_range(slot)]);
    Ok(())
}

// Writes the sector in a slot, unless it is marked bad.
pub(crate) fn write_slot(
    track: &mut [u8],
    slot: usize,
    size: SizeCode,
    buffer: &SectorBuffer,
) -> Result<(), WriteError>
    requires { Slot track.old size slot }
    ensures answer { result
        ≡ (if nat_eq (mark_at track.old slot) bad_mark then Err write_error.BadBlock else done) }
    ensures after { track.new
        ≡ (if nat_eq (mark_at track.old slot) bad_mark
        then track.old
        else with_sector slot (take (bytes_of size) buffer.now.bytes) buffer.now.check
        track.old) }
    ensures bytes { Bytes track.new }
    ensures full { (length buffer.now.bytes ≡ 1024) × (length buffer.now.check ≡ 4) }
{
    if track[3 + 2 * slot] == BAD_MARK {
        return Err(WriteError::BadBlock);
    }
    track[bytes_range(slot, size)].copy_from_slice(buffer.sector(size));
    track[check_range(slot)].copy_from_slice(&buffer.check);
    Ok(())
}

// The pair of number and mark of an ID.
fn pair_of(id: SectorId) -> [u8; 2]
    ensures { result ≡ pair_of id }
{
    [id.number, if id.bad { BAD_MARK } else { 0 }]
}

// Writes the pairs of the IDs over the front of `pairs`.
fn write_pairs(pairs: &mut [u8], ids: &[SectorId])
    requires { (2 * length ids.now ≤ length pairs.old) × (length ids.now ≤ 64) }
    ensures { pairs.new ≡ over 0 (flat_map pair_of ids.now) pairs.old }
{
    for (slot, id) in ids.iter().enumerate() {
        pairs[2 * slot..2 * slot + 2].copy_from_slice(&pair_of(*id));
    }
}

// Writes the check bytes of every sector over the front of `checks`.
fn write_checks(checks: &mut [u8], ids: &[SectorId], check: [u8; 4])
    requires { (4 * length ids.now ≤ length checks.old) × (length ids.now ≤ 64) }
    ensures { checks.new ≡ over 0 (flat_map (λ _. check) ids.now) checks.old }
{
    for slot in 0..ids.len() {
        checks[4 * slot..4 * slot + 4].copy_from_slice(&check);
    }
}

// Makes the record one of sectors with these IDs, of this size, with zero bytes and these check
// bytes.
pub(crate) fn format_track(track: &mut [u8], ids: &[SectorId], size: SizeCode, check: [u8; 4])
    requires { (length ids.now ≤ 64) × (386 + length ids.now * bytes_of size ≤ length track.old) }
    ensures after { track.new ≡ with_format ids.now size check track.old }
    ensures bytes { Bytes track.new }
{
    let head = [ids.len() as u8, u8::from(size)];
    track[..2].copy_from_slice(&head);
    write_pairs(&mut track[2..130], ids);
    write_checks(&mut track[130..HEADER], ids, check);
    let used = ids.len() * size.bytes();
    track[HEADER..HEADER + used].fill(0);
}
