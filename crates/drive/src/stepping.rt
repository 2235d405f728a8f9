//! Moving the head toward a cylinder.
ghost use Rattle.std.specs.Prelude.{◌≡◌};
ghost use Rattle.drive.specs.Calls.{nearer};

use super::drive::Drive;

/// One step toward a cylinder; none where the head stands there, or where the drive is not ready.
pub fn step_toward<D: Drive>(drive: &mut D, cylinder: u16)
    ensures { D.meaning drive.new ≡ nearer (D.meaning drive.old) cylinder }
{
    let at = drive.cylinder();
    if at < cylinder {
        let _ready = drive.step_in();
    } else if cylinder < at {
        let _ready = drive.step_out();
    }
}
