//! The theorems on check codes, each the contract of a function.
ghost use Rattle.check_code.specs.Code.{crc_code, ecc_code};
ghost use Rattle.check_code.specs.Laws.{WrittenWhole, Inverting, Combining, BurstShows};
ghost use Rattle.check_code.specs.Division.{CheckIsRemainder};
ghost use Rattle.check_code.specs.Examples.{Examples};

use super::code::CheckCode;

/// The laws of every check code: a sector written whole has no difference, inverting bits adds
/// their amount, amounts combine, and a burst always shows.
pub fn laws_stand<C: CheckCode>()
    ensures whole { WrittenWhole C.CheckCode.code }
    ensures inverting { Inverting C.CheckCode.code }
    ensures combining { Combining C.CheckCode.code }
    ensures shows { BurstShows C.CheckCode.code }
{}

/// The check of either code is the remainder of a division, and the worked examples hold.
pub fn theorems_stand()
    ensures crc { CheckIsRemainder crc_code }
    ensures ecc { CheckIsRemainder ecc_code }
    ensures examples { Examples }
{}
