//! What a sheet's comparison with its script tells.
ghost use Rattle.std.specs.Prelude.{◌≡◌, ◌↔◌, None};
ghost use Rattle.cue_sheet.specs.Lines.{differing_line};

use super::lines::first_difference;
use std::fmt;

/// The first line, counted from 1, in which a script differs from its sheet, if one does.
#[derive(Clone, Copy, PartialEq, Eq, Debug)]
pub struct Comparison {
    pub first: Option<usize>,
}

impl Comparison {
    /// Compares a sheet with its script.
    pub fn of(sheet: &[u8], script: &[u8]) -> Comparison
        ensures line { result.first ≡ differing_line sheet.now script.now }
        ensures none { (result.first ≡ None) ↔ (sheet.now ≡ script.now) }
    {
        Comparison {
            first: first_difference(sheet, script),
        }
    }
}

impl fmt::Display for Comparison {
    fn fmt<W: fmt::Write>(&self, f: &mut fmt::Formatter<W>) -> fmt::Result {
        match self.first {
            None => f.write_str("sheet and script match, line for line"),
            Some(line) => write!(f, "sheet and script differ, first in line {line}"),
        }
    }
}
