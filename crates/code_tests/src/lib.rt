//! Codes and sheets in use: published values, bursts at the edges of sectors, and lines. It has no
//! code of its own.
#![tactic(auto)]

#[cfg(test)]
mod codes;
#[cfg(test)]
mod sheets;
