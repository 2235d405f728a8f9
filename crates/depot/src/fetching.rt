//! Reading: what an earlier show leaves unfinished, and the script on site.
use super::console::Console;
use super::outcome::{Outcome, Success, Tally};
use super::registers::Order;
use drive::{Drive, Place};
use records::RECORD;
use std::io;

/// An earlier show: the first record is half read, and everything is left as it stands then.
pub fn leave_half<D: Drive>(rt: &HostRuntime, console: &mut Console<D>) -> anyhow::Result<()> {
    let Some(place) = console.grid().place(0) else {
        println!(rt; "earlier show: none, since the drive has no record")?;
        return Ok(());
    };
    let half = RECORD / 2;
    let lines = console.leave_read(place, half)?;
    let order = Order::Read;
    println!(rt;
        "earlier show: {order} of record 0, drawn: {half} of {RECORD} bytes, left: {lines}"
    )?;
    Ok(())
}

// Tells what a record met, where it was not clean at once.
fn print_reading(rt: &HostRuntime, index: usize, outcome: Outcome) -> io::Result<()> {
    let attempts = outcome.attempts;
    match outcome.ending {
        Ok(Success::Clean) if attempts == 1 => Ok(()),
        Ok(Success::Clean) => println!(rt; "site: record {index:>3} clean at attempt {attempts}"),
        Ok(Success::Corrected) => println!(rt;
            "site: record {index:>3} corrected at attempt {attempts}"
        ),
        Err(failure) => println!(rt;
            "site: record {index:>3} not read, zeros in its place: {failure}"
        ),
    }
}

/// The bytes of the records at these places. One that cannot be read is told of, and counts as
/// zeros.
pub fn fetch<D: Drive>(
    rt: &HostRuntime,
    console: &mut Console<D>,
    places: &[Place],
) -> anyhow::Result<Vec<u8>> {
    let mut script = Vec::new(rt.alloc());
    let mut tally = Tally::default();
    for (index, place) in places.iter().enumerate() {
        let record = console.read_record(*place)?;
        print_reading(rt, index, record.outcome)?;
        match record.outcome.ending {
            Err(_) => script.extend_from_slice(&[0; RECORD])?,
            Ok(_) => script.extend_from_slice(&record.bytes)?,
        }
        tally.count(record.outcome);
    }
    let records = places.len();
    let order = Order::Read;
    let Tally {
        turns,
        retries,
        corrected,
        failed,
    } = tally;
    println!(rt;
        "site: {order}, records: {records}, retries: {retries}, corrected: {corrected}, \
         not read: {failed}, turns: {turns}"
    )?;
    Ok(script)
}
