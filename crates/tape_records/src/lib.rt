// The records of a paper tape.
#![tactic(auto)]

pub mod digits; // digits.rt: hex digits, and what they write
pub mod record; // record.rt: one record
