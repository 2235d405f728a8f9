//! The worked examples, as the contract of a function.
ghost use Rattle.histories.specs.Examples.{WorkedExamples};

/// The worked examples of codes and controller hold.
pub fn examples_stand()
    ensures { WorkedExamples }
{}
