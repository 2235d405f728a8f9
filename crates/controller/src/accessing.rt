//! Register reads and writes: the access rules, and what each access does.
ghost use Rattle.std.specs.Prelude.{◌≡◌, false};
ghost use Rattle.task_file.specs.declared.registers.Register.TheVariants.{Status};
ghost use Rattle.task_file.specs.Commands.{command_of};
ghost use Rattle.task_file.specs.Status.{status_of};
ghost use Rattle.controller.specs.Access.{answered, begun_by, command_refusal};
ghost use Rattle.controller.specs.Model.{model, seen, read_answered, after_register_read, write_answered, after_register_write};
ghost use Rattle.controller.specs.Controller.{drives_in, model_of};

use super::access::Refusal;
use super::controller::Controller;
use super::viewing::selected_view;
use drive::Drive;
use task_file::{BAYS, BUSY, Command, Phase, Register, State};

// Answers this status; reading it turns INTRQ off.
fn status_read(state: &mut State, status: u8) -> u8
    ensures byte { result ≡ status }
    ensures after { state.new ≡ record state.old { intrq = false } }
{
    state.intrq = false;
    status
}

// The status, with the drive that SDH selects now; reading it turns INTRQ off.
fn read_status<D: Drive>(state: &mut State, drives: &[D; BAYS]) -> u8
    ensures byte { result ≡ status_of state.old (seen (model D.meaning state.old drives.now)) }
    ensures after { state.new ≡ record state.old { intrq = false } }
{
    let view = selected_view(state, drives);
    let status = state.status(view);
    status_read(state, status)
}

// Begins the command that a byte gives, on the drive that SDH selects now.
#[cold]
#[inline(never)]
fn begin<D: Drive>(state: &mut State, drives: &[D; BAYS], byte: u8) -> Result<(), Refusal>
    ensures answer { result ≡ answered (command_refusal Status (command_of byte)) tt }
    ensures after { state.new
        ≡ begun_by (command_of byte) state.old (seen (model D.meaning state.old drives.now)) }
{
    let command = Command::try_from(byte)?;
    let view = selected_view(state, drives);
    state.begin(command, view);
    Ok(())
}

impl<D: Drive> Controller<D> {
    /// Reads the register of this number. Refused, in this order: where no register has it, while
    /// BUSY is on unless it is the status, and for the data register where no byte is offered.
    #[inline(always)]
    #[tactic(auto, unfolding(crate::specs::Access::read_answer_of, // the answer
    crate::specs::Access::state_after_read))]
    pub fn read_register(&mut self, number: u8) -> Result<u8, Refusal>
        ensures answer { result ≡ read_answered (model_of D.meaning self.old) number }
        ensures after { model_of D.meaning self.new
            ≡ after_register_read (model_of D.meaning self.old) number }
        ensures drives { drives_in self.new ≡ drives_in self.old }
    {
        let register = Register::try_from(number)?;
        let Controller { state, drives } = self;
        match (state.phase, register) {
            (Phase::Busy(_), Register::Status) => Ok(status_read(state, BUSY)),
            (_, Register::Status) => Ok(read_status(state, drives)),
            (Phase::Busy(_), _) => Err(Refusal::Busy),
            (Phase::Offering(_, _), Register::Data) => Ok(state.draw()),
            (Phase::Rest | Phase::Taking(_, _), Register::Data) => Err(Refusal::NoDataRequest),
            (_, Register::Error) => Ok(state.error()),
            (_, Register::Count) => Ok(state.registers.count),
            (_, Register::Number) => Ok(state.registers.number),
            (_, Register::CylinderLow) => Ok(state.registers.cylinder_low),
            (_, Register::CylinderHigh) => Ok(state.registers.cylinder_high),
            (_, Register::Sdh) => Ok(state.registers.sdh),
        }
    }

    /// Writes a byte to the register of this number. Refused, in this order: where no register has
    /// it, while BUSY is on, for the data register where no byte is taken, for registers 1 to 6
    /// while DRQ is on, and for the command register where the byte is no command.
    #[inline(always)]
    #[tactic(auto, unfolding(crate::specs::Access::write_answer_of, // the answer
    crate::specs::Access::state_after_write))]
    pub fn write_register(&mut self, number: u8, byte: u8) -> Result<(), Refusal>
        ensures answer { result ≡ write_answered (model_of D.meaning self.old) number byte }
        ensures after { model_of D.meaning self.new
            ≡ after_register_write (model_of D.meaning self.old) number byte }
        ensures drives { drives_in self.new ≡ drives_in self.old }
    {
        let register = Register::try_from(number)?;
        let Controller { state, drives } = self;
        match (state.phase, register) {
            (Phase::Busy(_), _) => Err(Refusal::Busy),
            (Phase::Taking(_, _), Register::Data) => {
                state.put(byte);
                Ok(())
            }
            (Phase::Rest | Phase::Offering(_, _), Register::Data) => Err(Refusal::NoDataRequest),
            (_, Register::Status) => begin(state, drives, byte),
            (Phase::Offering(_, _) | Phase::Taking(_, _), _) => Err(Refusal::DataRequest),
            (Phase::Rest, _) => {
                state.registers.store(register, byte);
                Ok(())
            }
        }
    }
}
