//! What the controller sees of its drives.
ghost use Rattle.std.specs.Prelude.{◌≡◌};
ghost use Rattle.controller.specs.Model.{model, seen, view_of};

use drive::Drive;
use task_file::{BAYS, DriveView, Selection, State};

// What is seen of a drive by what SDH selects.
fn view<D: Drive>(at: Selection, drive: &D) -> DriveView
    ensures { result ≡ view_of at (D.meaning drive.now) }
{
    DriveView {
        at,
        ready: drive.is_ready(),
        protected: drive.is_protected(),
        geometry: drive.geometry(),
    }
}

/// What is seen of the drive that SDH selects, if it selects one.
pub fn selected_view<D: Drive>(state: &State, drives: &[D; BAYS]) -> Option<DriveView>
    ensures { result ≡ seen (model D.meaning state.now drives.now) }
{
    let at = state.registers.selection()?;
    Some(view(at, &drives[at.bay.index()]))
}
