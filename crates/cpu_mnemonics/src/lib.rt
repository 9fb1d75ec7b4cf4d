// Operations of a span tried, those that store no byte.
// Memory and page sums are lent as two slices: one behind a field of a lent struct is known no more once it has been
// lent to be read, and an instruction reads before it writes.
#![tactic(auto)]

pub mod flow; // flow.rt: branches, jumps, the stack, calls and returns
pub mod reads; // reads.rt: operations that read a byte
pub mod registers; // registers.rt: operations on registers and flags
