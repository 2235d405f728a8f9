//! At the depot: the drive is restored and formatted, and the sheet is written to it.
use super::console::Console;
use super::outcome::{Outcome, Tally};
use super::registers::Order;
use drive::{Drive, Place};
use records::{RECORD, record_of};
use std::io;

/// Sends the head to cylinder 0, at the depot or on site.
pub fn restore<D: Drive>(
    rt: &HostRuntime,
    console: &mut Console<D>,
    here: &str,
) -> anyhow::Result<()> {
    let outcome = console
        .restore()?
        .required(rt.alloc(), "the head could not be restored")?;
    let turns = outcome.turns;
    let order = Order::Restore;
    println!(rt; "{here}: {order}, turns: {turns}")?;
    Ok(())
}

// Formats the track of a place with as many records as tracks have room for.
fn format_track<D: Drive>(
    rt: &HostRuntime,
    console: &mut Console<D>,
    place: Place,
) -> anyhow::Result<Outcome> {
    let sectors = console.grid().sectors;
    console
        .format_track(place, sectors)?
        .required(rt.alloc(), "a track could not be formatted")
}

// Formats every track, if tracks have room for a record.
fn format_tracks<D: Drive>(rt: &HostRuntime, console: &mut Console<D>) -> anyhow::Result<()> {
    let grid = console.grid();
    let heads = if grid.sectors == 0 { 0 } else { grid.heads };
    let mut tracks = 0usize;
    let mut tally = Tally::default();
    for cylinder in 0..grid.cylinders {
        for head in 0..heads {
            let place = Place {
                cylinder,
                head,
                number: 0,
            };
            tally.count(format_track(rt, console, place)?);
            tracks = tracks.saturating_add(1);
        }
    }
    let order = Order::Format;
    let sectors = grid.sectors;
    let turns = tally.turns;
    println!(rt; "depot: {order}, tracks: {tracks}, sectors on each: {sectors}, turns: {turns}")?;
    Ok(())
}

/// Waits for the controller's test, restores the head and formats the drive.
pub fn prepare<D: Drive>(rt: &HostRuntime, console: &mut Console<D>) -> anyhow::Result<()> {
    let outcome = console.test()?.required(rt.alloc(), "the test failed")?;
    let turns = outcome.turns;
    println!(rt; "depot: Test at power-on, turns: {turns}")?;
    restore(rt, console, "depot")?;
    format_tracks(rt, console)
}

// Tells of a record that was not written at once.
fn print_writing(rt: &HostRuntime, index: usize, outcome: Outcome) -> io::Result<()> {
    let attempts = outcome.attempts;
    if attempts == 1 {
        return Ok(());
    }
    println!(rt; "depot: record {index:>3} written at attempt {attempts}")
}

/// Writes a sheet, record by record.
pub fn store<D: Drive>(
    rt: &HostRuntime,
    console: &mut Console<D>,
    places: &[Place],
    sheet: &[u8],
) -> anyhow::Result<()> {
    let mut tally = Tally::default();
    for (index, (place, part)) in places.iter().zip(sheet.chunks(RECORD)).enumerate() {
        let outcome = console
            .write_record(*place, &record_of(part))?
            .required(rt.alloc(), "a record could not be written")?;
        print_writing(rt, index, outcome)?;
        tally.count(outcome);
    }
    let records = places.len();
    let order = Order::Write;
    let Tally { turns, retries, .. } = tally;
    println!(rt; "depot: {order}, records: {records}, retries: {retries}, turns: {turns}")?;
    Ok(())
}
