//! The sheet that comes in, and the script's comparison with it.
ghost use Rattle.std.specs.Prelude.{◌≡◌, IfOk};

use anyhow::anyhow;
use cue_sheet::{Comparison, count_lines};
use std::io;
use std::io::Read;

/// The sheet on standard input.
pub fn read_sheet(rt: &HostRuntime) -> io::Result<Vec<u8>> {
    let mut sheet = Vec::new(rt.alloc());
    rt.stdin().read_to_end(&mut sheet)?;
    let lines = count_lines(&sheet);
    let bytes = sheet.len();
    println!(rt; "sheet: {lines} lines, {bytes} bytes")?;
    Ok(sheet)
}

/// Compares the script with the sheet, and tells the first line that differs; that one does is an
/// error.
pub fn print_comparison(rt: &HostRuntime, sheet: &[u8], script: &[u8]) -> anyhow::Result<()>
    ensures { IfOk result (λ _. sheet.now ≡ script.now) }
{
    let lines = count_lines(script);
    println!(rt; "script: {lines} lines")?;
    let comparison = Comparison::of(sheet, script);
    println!(rt; "{comparison}")?;
    match comparison.first {
        None => Ok(()),
        Some(_) => Err(anyhow!("the script is not the sheet")),
    }
}
