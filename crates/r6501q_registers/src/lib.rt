// The registers of the R6501Q at 00h to 3Fh: what each read and each write does.
#![tactic(auto)]

// The addresses.
pub mod addresses;

// Reads.
pub mod read;

// Writes.
pub mod write;
