//! A list of calls, made one after another.
ghost use Rattle.std.specs.Prelude.{◌≡◌, MatchResult};
ghost use Rattle.controller.specs.Controller.{model_of};
ghost use Rattle.controller.specs.Runs.{Ran};

use controller::{Answer, Call, Controller, make_call};
use drive::Drive;
use std::alloc::{AllocError, Global};

/// Makes the calls, and hands back every answer. Room for the answers is had first: where memory is
/// wanting, no call is made.
#[tactic(auto, using(controller::proofs::Runs::steps))]
pub fn make_calls<D: Drive>(
    controller: &mut Controller<D>,
    heap: Global,
    calls: &[Call],
) -> Result<Vec<Answer>, AllocError>
    ensures { MatchResult result
        (λ v. Ran (model_of D.meaning controller.old) calls.now v.items
        (model_of D.meaning controller.new))
        (λ _. controller.new ≡ controller.old) }
{
    let mut answers = Vec::with_capacity(heap, calls.len())?;
    for call in calls {
        answers.push_reserved(make_call(controller, *call));
    }
    Ok(answers)
}
