//! The measures of the image.
ghost use Rattle.std.specs.Prelude.{◌≡◌, [], Ok};
ghost use Rattle.program_parts.specs.Measures.{usual_geometry};

use anyhow::{Context, anyhow};
use drive::Geometry;
use std::env;

// What is wrong with words that give no measures.
const USAGE: &str = "usage: depot [CYLINDERS HEADS CAPACITY] < SHEET, at most 1024 8 65536";

/// The measures that words give, which are cylinders, heads and track capacity; where there are no
/// words, 4 cylinders of 2 heads with room for 8 sectors of 512 bytes a track.
pub fn geometry_of(words: &[&str]) -> anyhow::Result<Geometry>
    ensures { words.now ≡ [] → result ≡ Ok usual_geometry }
{
    match words {
        [] => Ok(Geometry {
            cylinders: 4,
            heads: 2,
            capacity: 4096,
        }),
        [cylinders, heads, capacity] => Ok(Geometry {
            cylinders: cylinders.parse::<u16>().context(USAGE)?,
            heads: heads.parse::<u8>().context(USAGE)?,
            capacity: capacity.parse::<u32>().context(USAGE)?,
        }),
        _ => Err(anyhow!(USAGE)),
    }
}

/// The measures that the program's arguments give.
pub fn asked_for(rt: &HostRuntime) -> anyhow::Result<Geometry> {
    let mut args = env::args(rt)?;
    let _program = args.next();
    let words: Vec<String> = args.collect(rt.alloc())?;
    let words: Vec<&str> = words.iter().map(String::as_str).collect(rt.alloc())?;
    geometry_of(&words)
}
