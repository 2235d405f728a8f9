//! Fault tables in use: what is refused, and what attempts show, under one table and under two. It
//! has no code of its own.
#![tactic(auto)]

#[cfg(test)]
mod adding;
#[cfg(test)]
mod attempts;
