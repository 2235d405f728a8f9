//! Entry points for C programs, by which the codes are measured against plain C. A program that
//! links them needs nothing else.
//!
//! Promised here: each is the library's own function, under a name that C can link.
#![tactic(auto)]

mod codes;
