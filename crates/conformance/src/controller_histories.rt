//! A history: a list of calls with every answer, on a controller that stands, and on one that is
//! made for it.
use super::bench::empty_board;
use super::bytes::*;
use controller::{Answer, Call, Controller, Refusal};
use drive::EmptyBay;
use histories::{finish, make_calls};
use round_trip::run_anew;
use std::alloc::{AllocError, Global};
use std::process::Abort;
use std::test::Fail;

// Calls and their answers, from the making of a controller without drives to a Test that is under
// way.
const HISTORY: &[(Call, Answer)] = &[
    (Call::Read(STATUS), Ok(Some(BUSY))),
    (Call::Read(NUMBER), Err(Refusal::Busy)),
    (Call::Write(NUMBER, 1), Err(Refusal::Busy)),
    (Call::Turn, Ok(None)),
    (Call::Read(STATUS), Ok(Some(0))),
    (Call::Read(BEYOND), Err(Refusal::NoRegister)),
    (Call::Write(NUMBER, 1), Ok(None)),
    (Call::Read(DATA), Err(Refusal::NoDataRequest)),
    (Call::Write(COMMAND, UNKNOWN), Err(Refusal::NoCommand)),
    (Call::Write(COMMAND, SEEK), Ok(None)),
    (Call::Read(ERROR), Ok(Some(ABORTED))),
    (Call::Read(STATUS), Ok(Some(FAILED))),
    (Call::Read(NUMBER), Ok(Some(1))),
    (Call::Reset, Ok(None)),
    (Call::Read(STATUS), Ok(Some(BUSY))),
    (Call::Turn, Ok(None)),
    (Call::Read(NUMBER), Ok(Some(0))),
    (Call::Write(COMMAND, TEST), Ok(None)),
];

// The calls of HISTORY.
fn calls(heap: Global) -> Result<Vec<Call>, AllocError> {
    let mut calls = Vec::new(heap);
    for (call, _) in HISTORY {
        calls.push(*call)?;
    }
    Ok(calls)
}

// These are the answers of HISTORY, and a Test is left under way, which is the only turn to make;
// at rest there is none.
fn has_answered(rt: &impl Abort, mut controller: Controller<EmptyBay>, answers: &[Answer]) {
    assert_eq!(rt; answers.len(), HISTORY.len());
    for ((_, expected), answer) in HISTORY.iter().zip(answers.iter()) {
        assert_eq!(rt; answer, expected);
    }
    assert_eq!(rt; finish(&mut controller), 1);
    assert_eq!(rt; finish(&mut controller), 0);
}

// A run gives every answer, on a controller that stands.
#[test]
fn a_history(rt: HostRuntime) -> Result<(), Fail> {
    let mut controller = empty_board(rt.alloc());
    let answers = make_calls(&mut controller, rt.alloc(), &calls(rt.alloc())?)?;
    has_answered(&rt, controller, &answers);
    Ok(())
}

// So does one that makes its controller.
#[test]
fn a_history_anew(rt: HostRuntime) -> Result<(), Fail> {
    let drives = empty_board(rt.alloc()).into_drives();
    let (controller, answers) = run_anew(drives, rt.alloc(), &calls(rt.alloc())?);
    has_answered(&rt, controller, &answers?);
    Ok(())
}
