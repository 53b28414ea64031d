// Bytes of a draft before any token is told: what a byte begins or ends by itself, and how far bytes of one sort go on, be it whitespace or
// what words, comments and string data are mostly made of.

#![tactic(auto)]

pub mod blank;
pub mod byte;
pub mod eight;
pub mod past;
pub mod settled;
pub mod sorts;
