//! The controller against its rules, as tables: scripts that are played on it. It has no code of
//! its own.
#![tactic(auto)]

#[cfg(test)]
mod bench;
#[cfg(test)]
mod bytes;
#[cfg(test)]
mod controller_access;
#[cfg(test)]
mod controller_amid;
#[cfg(test)]
mod controller_bays;
#[cfg(test)]
mod controller_commands;
#[cfg(test)]
mod controller_failures;
#[cfg(test)]
mod controller_histories;
#[cfg(test)]
mod controller_memory;
#[cfg(test)]
mod controller_transfers;
