//! The calls on a controller, and their answers, as values.
ghost use Rattle.std.specs.Prelude.{◌≡◌};
ghost use Rattle.controller.specs.Controller.{model_of};
ghost use Rattle.controller.specs.Runs.{answer_to, called};

use super::access::Refusal;
use super::controller::Controller;
use drive::Drive;

/// A call on a controller.
#[derive(Clone, Copy, Debug)]
pub enum Call {
    /// A read of the register of this number.
    Read(u8),
    /// A write to the register of this number, and the byte.
    Write(u8, u8),
    Turn,
    Reset,
}

/// What a call answers: the byte that a read gives, that any other call is done, or why an access
/// is refused.
pub type Answer = Result<Option<u8>, Refusal>;

/// Makes one call.
pub fn make_call<D: Drive>(controller: &mut Controller<D>, call: Call) -> Answer
    ensures answer { result ≡ answer_to (model_of D.meaning controller.old) call }
    ensures after { model_of D.meaning controller.new
        ≡ called (model_of D.meaning controller.old) call }
{
    match call {
        Call::Read(number) => controller.read_register(number).map(Some),
        Call::Write(number, byte) => controller.write_register(number, byte).map(|()| None),
        Call::Turn => {
            controller.turn();
            Ok(None)
        }
        Call::Reset => {
            controller.master_reset();
            Ok(None)
        }
    }
}
