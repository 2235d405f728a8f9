//! Faults that the program lays over a drive.
ghost use Rattle.std.specs.Prelude.{◌≡◌, IfOk, map};
ghost use Rattle.fault_table.specs.Adding.{all_added};
ghost use Rattle.fault_table.specs.Faults.{entries_in, drive_under};
ghost use Rattle.program_parts.specs.Laying.{burst_by_rule, wanted};

use anyhow::anyhow;
use drive::{Drive, Place};
use fault_table::{FaultEntry, FaultKind, FaultTable};
use sector::Burst;

/// A kind of fault, and how many attempts in a row meet it.
#[derive(Clone, Copy)]
pub struct Stretch {
    pub kind: FaultKind,
    pub attempts: u16,
}

// The burst that the rule has for a record.
fn burst_of(index: usize) -> Burst
    ensures { result ≡ burst_by_rule index }
{
    Burst {
        first: (index % 4096 * 409 % 4124) as u16,
        pattern: (2 * (index % 16) + 1) as u8,
    }
}

/// Lays the faults of the records at these places, as far as the table has room, and tells of each:
/// record r meets those of row r modulo 4.
pub fn lay<D: Drive>(
    rt: &HostRuntime,
    table: &mut FaultTable<D>,
    places: &[Place],
    rows: [&[Stretch]; 4],
) -> anyhow::Result<()>
    ensures entries { IfOk result
        (λ _. entries_in table.new
        ≡ all_added (entries_in table.old) (wanted (map (λ row. row.now) rows.entry) places.now)) }
    ensures drive { drive_under table.new ≡ drive_under table.old }
{
    let mut records = Vec::new(rt.alloc());
    let mut entries = Vec::new(rt.alloc());
    for (index, place) in places.iter().enumerate() {
        for stretch in rows[index % 4].iter().copied() {
            let entry = FaultEntry {
                place: *place,
                kind: stretch.kind,
                burst: burst_of(index),
                attempts: stretch.attempts,
            };
            if !entry.is_in_range() {
                return Err(anyhow!("a fault was refused"));
            }
            records.push(index)?;
            entries.push(entry)?;
        }
    }
    let laid = table.add_all(&entries);
    for (index, entry) in records.iter().zip(&entries).take(laid) {
        println!(rt; "fault at record {index:>3}: {entry}")?;
    }
    let wanted = entries.len();
    println!(rt; "faults laid: {laid} of {wanted}")?;
    Ok(())
}
