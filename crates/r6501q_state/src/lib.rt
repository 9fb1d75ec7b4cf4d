// The R6501Q's state and pins: what the registers, and the steps of a clock, stand on.
#![tactic(auto)]

// The machine state.
pub mod state;

// Drive, levels, edges, RES low.
pub mod pins;

// Input codes.
pub mod inputs;

// Interrupt flags as read, the counters' modes.
pub mod control;
