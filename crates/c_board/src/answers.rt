//! Calls on a board, with every answer, and timed rounds after them.
ghost use Rattle.std.specs.Prelude.{◌≡◌, map, IfOk, if◌then◌else◌};
ghost use Rattle.controller.specs.Controller.{model_of};
ghost use Rattle.controller.specs.Runs.{runs};
ghost use Rattle.task_file.specs.declared.bay.Bay.TheVariants.{Winchester1, Floppy1};
ghost use Rattle.c_board.specs.Board.{board_model, held, fitting};
ghost use Rattle.c_board.specs.Rounds.{heard, rounds_of};
ghost use Rattle.c_board.specs.Runs.{call_of, shown, all_shown, run_of};

use super::board::{ImageMeasures, PlainFault, board, give_back, replace};
use super::rounds::{PlainRounds, rounds};
use controller::{Answer, Call, Controller, make_call};
use drive::Drive;
use std::alloc::{AllocError, Global};

/// A call, as C gives it: a read of a register, a write to one, a turn, or a master reset.
#[repr(C)]
#[derive(Clone, Copy)]
pub struct PlainCall {
    /// 0 reads a register, 1 writes one, 2 is a turn, and any other is a master reset.
    pub kind: u8,
    /// The register of an access.
    pub number: u8,
    /// The byte of a write.
    pub byte: u8,
}

/// What a call answers, and what the controller shows once it is made.
#[repr(C)]
#[derive(Clone, Copy)]
pub struct PlainAnswer {
    /// The number of the refusal, from 1 to 5, or 0.
    pub refusal: u8,
    /// The byte that a read gave, or 0.
    pub byte: u8,
    pub drq: bool,
    pub intrq: bool,
    pub busy: bool,
    /// The last fault, here and in the fields below; all are 0 where there is none.
    pub layer: u8,
    pub error: u8,
    pub head: u8,
    pub number: u8,
    pub attempts: u8,
    pub cylinder: u16,
}

impl PlainCall {
    fn call(self) -> Call
        ensures { result ≡ call_of self }
    {
        match self.kind {
            0 => Call::Read(self.number),
            1 => Call::Write(self.number, self.byte),
            2 => Call::Turn,
            _ => Call::Reset,
        }
    }
}

// What C is told of an answer.
fn tell<D: Drive>(controller: &Controller<D>, answer: Answer) -> PlainAnswer
    ensures { result ≡ shown (model_of D.meaning controller.now) answer }
{
    let (refusal, byte) = match answer {
        Ok(Some(byte)) => (0, byte),
        Ok(None) => (0, 0),
        Err(why) => (u8::from(why), 0),
    };
    let lines = controller.lines();
    let fault = controller.last_fault().unwrap_or_default();
    PlainAnswer {
        refusal,
        byte,
        drq: lines.drq,
        intrq: lines.intrq,
        busy: controller.is_busy(),
        layer: fault.layer,
        error: fault.error,
        head: fault.head,
        number: fault.number,
        attempts: fault.attempts,
        cylinder: fault.cylinder,
    }
}

// Makes the calls, and tells of each.
#[tactic(auto, using(std::proofs::lemmas::List::drop_more), // one call more
unfolding(crate::specs::Runs::all_shown, controller::specs::Runs::runs))]
fn all_answers<D: Drive>(
    controller: &mut Controller<D>,
    heap: Global,
    calls: &[PlainCall],
) -> Result<Vec<PlainAnswer>, AllocError>
    ensures answers { IfOk result
        (λ v. v.items ≡ all_shown (model_of D.meaning controller.old) (map call_of calls.now)) }
    ensures after { IfOk result
        (λ _. model_of D.meaning controller.new
        ≡ runs (model_of D.meaning controller.old) (map call_of calls.now)) }
{
    let mut answers = Vec::with_capacity(heap, calls.len())?;
    for call in calls {
        let answer = make_call(controller, call.call());
        answers.push(tell(controller, answer))?;
    }
    Ok(answers)
}

/// Makes calls, and then rounds, on a board that is made now over images with these bytes; false
/// where memory is wanting. Tells of each call, and what is heard of the rounds.
#[unsafe(no_mangle)]
pub extern "C" fn disk_answers(
    heap: Global,
    winchester: &ImageMeasures,
    winchester_bytes: &mut [u8],
    floppy: &ImageMeasures,
    floppy_bytes: &mut [u8],
    faults: &[PlainFault],
    calls: &[PlainCall],
    answers: &mut [PlainAnswer],
    asked: &PlainRounds,
    sum: &mut u32,
) -> bool
    ensures answers { answers.new ≡ (if result
        then fitting (all_shown (board_model winchester.now winchester_bytes.old faults.now
        floppy.now floppy_bytes.old) (map call_of calls.now)) answers.old
        else answers.old) }
    ensures sum { sum.new ≡ (if result
        then heard (runs (board_model winchester.now winchester_bytes.old faults.now
        floppy.now floppy_bytes.old) (map call_of calls.now)) 0 (rounds_of asked.now)
        else sum.old) }
    ensures winchester { winchester_bytes.new ≡ (if result
        then fitting (held (run_of (board_model winchester.now winchester_bytes.old faults.now
        floppy.now floppy_bytes.old) calls.now asked.now) Winchester1) winchester_bytes.old
        else winchester_bytes.old) }
    ensures floppy { floppy_bytes.new ≡ (if result
        then fitting (held (run_of (board_model winchester.now winchester_bytes.old faults.now
        floppy.now floppy_bytes.old) calls.now asked.now) Floppy1) floppy_bytes.old
        else floppy_bytes.old) }
{
    let made = board(
        heap,
        *winchester,
        winchester_bytes,
        faults,
        *floppy,
        floppy_bytes,
    );
    let Ok(mut controller) = made else {
        return false;
    };
    let Ok(told) = all_answers(&mut controller, heap, calls) else {
        return false;
    };
    replace(answers, &told);
    *sum = rounds(&mut controller, *asked);
    give_back(controller, winchester_bytes, floppy_bytes);
    true
}
