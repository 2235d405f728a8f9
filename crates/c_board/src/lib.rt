//! An entry point for C programs, by which the controller is measured against plain C.
//!
//! Promised here: it makes a controller over images of the bytes that it is given, makes the calls
//! that it is given and rounds of calls after them, answers what they answer, and leaves in the
//! bytes what the images then hold.
#![tactic(auto)]

mod answers;
mod board;
mod rounds;
