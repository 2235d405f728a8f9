//! The controller.
ghost use Rattle.controller.specs.Model.{model};
ghost use Rattle.controller.specs.Runs.{Reached};

use drive::Drive;
use task_file::{BAYS, State};

/// A controller over a drive in each bay: nothing but its calls made it what it is. Clauses name
/// its model by `model_of`.
#[derive(Drop)]
pub struct Controller<D: Drive> {
    pub(super) state: State,
    pub(super) drives: [D; BAYS],
    // A new controller, and a list of calls that leads from it to this one.
    ghost reached: { ∥ Reached (model D.meaning state drives) ∥₁ },
}
