//! Turning a controller until BUSY is off.
ghost use Rattle.std.specs.Prelude.{◌≡◌, ℕ, ◌+◌, ◌<◌, ◌≤◌, true, false};
ghost use Rattle.task_file.specs.State.{is_busy};
ghost use Rattle.controller.specs.Controller.{model_of};
ghost use Rattle.controller.specs.Runs.{Continues};
ghost use Rattle.histories.specs.Working.{turn_calls, turns};

use controller::Controller;
use drive::Drive;

/// Turns the controller until BUSY is off, and tells how many turns that took: at most a seek over
/// all cylinders that drives of this make have, and nine attempts.
pub fn finish<D: Drive>(controller: &mut Controller<D>) -> u16
    ensures made { model_of D.meaning controller.new
        ≡ turns result (model_of D.meaning controller.old) }
    ensures busy { (k : ℕ) → k < result
        → is_busy (turns k (model_of D.meaning controller.old)).state.phase ≡ true }
    ensures rests { is_busy (model_of D.meaning controller.new).state.phase ≡ false }
    ensures few { result ≤ D.MOST_CYLINDERS + 8 }
    ensures history { Continues (model_of D.meaning controller.old) (turn_calls result)
        (model_of D.meaning controller.new) }
{
    let most = D::MOST_CYLINDERS + 8;
    for made in 0..most {
        if !controller.is_busy() {
            return made;
        }
        controller.turn();
    }
    most
}
