// What an operation computes, by its kind.
#![tactic(auto)]

// The operations of each kind.
pub mod kinds;

// One CPU register set, the others kept.
pub mod updates;
