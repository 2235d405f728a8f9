//! The making of a controller, and what can be asked of it.
ghost use Rattle.std.specs.Prelude.{◌≡◌};
ghost use Rattle.task_file.specs.Failures.{last_fault};
ghost use Rattle.task_file.specs.State.{is_busy};
ghost use Rattle.controller.specs.Model.{drives_of, lines_of, made};
ghost use Rattle.controller.specs.Controller.{drives_in, model_of};
ghost use Rattle.controller.specs.Runs.{IsNew};

use super::access::Lines;
use super::controller::Controller;
use drive::Drive;
use task_file::{BAYS, Fault, State};

impl<D: Drive> Controller<D> {
    /// A controller over these drives, in the order of their bays; it begins with Test.
    pub fn new(drives: [D; BAYS]) -> Self
        ensures model { model_of D.meaning result ≡ made (drives_of D.meaning drives) }
        ensures new { IsNew (model_of D.meaning result) }
        ensures drives { drives_in result ≡ drives }
    {
        Controller {
            state: State::new(),
            drives,
        }
    }

    /// The drives, as they are now, in the order of their bays.
    pub fn into_drives(self) -> [D; BAYS]
        ensures { result ≡ drives_in self }
    {
        self.drives
    }

    /// DRQ, the data request, and INTRQ, the interrupt request.
    pub fn lines(&self) -> Lines
        ensures { result ≡ lines_of (model_of D.meaning self.now).state }
    {
        Lines {
            drq: self.state.phase.requests(),
            intrq: self.state.intrq,
        }
    }

    /// BUSY: a command is under way. Asking changes nothing, the interrupt neither.
    pub fn is_busy(&self) -> bool
        ensures { result ≡ is_busy (model_of D.meaning self.now).state.phase }
    {
        self.state.phase.is_busy()
    }

    /// Why the last command failed, as numbers; absent whenever Error is off.
    pub fn last_fault(&self) -> Option<Fault>
        ensures { result ≡ last_fault (model_of D.meaning self.now).state.failure }
    {
        self.state.last_fault()
    }
}
