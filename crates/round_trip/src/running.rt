//! A list of calls on a controller whose whole history is under the theorem.
ghost use Rattle.std.specs.Prelude.{◌≡◌, MatchResult};
ghost use Rattle.controller.specs.Model.{drives_of, made};
ghost use Rattle.controller.specs.Controller.{model_of};
ghost use Rattle.controller.specs.Runs.{Ran};
ghost use Rattle.round_trip.specs.Laws.{RoundTrip, Tells};

use controller::{Answer, Call, Controller};
use drive::Drive;
use std::alloc::{AllocError, Global};
use task_file::BAYS;

/// Makes the calls, and hands back every answer. Where memory is wanting for the answers, no call
/// is made.
pub fn run<D: Drive>(
    controller: &mut Controller<D>,
    heap: Global,
    calls: &[Call],
) -> Result<Vec<Answer>, AllocError>
    ensures { MatchResult result
        (λ v. Tells (model_of D.meaning controller.old) calls.now v.items
        (model_of D.meaning controller.new))
        (λ _. controller.new ≡ controller.old) }
{
    let answers = histories::make_calls(controller, heap, calls)?;
    Ok(answers)
}

/// Makes a controller over these drives, in the order of their bays, and makes the calls; hands
/// back the controller, and every answer. Where memory is wanting for the answers, no call is
/// made.
pub fn run_anew<D: Drive>(
    drives: [D; BAYS],
    heap: Global,
    calls: &[Call],
) -> (Controller<D>, Result<Vec<Answer>, AllocError>)
    ensures outcome { MatchResult result.1
        (λ v. Ran (made (drives_of D.meaning drives)) calls.now v.items
        (model_of D.meaning result.0))
        (λ _. model_of D.meaning result.0 ≡ made (drives_of D.meaning drives)) }
    ensures laws { RoundTrip (made (drives_of D.meaning drives)) calls.now }
{
    let mut controller = Controller::new(drives);
    let answers = run(&mut controller, heap, calls);
    (controller, answers)
}
