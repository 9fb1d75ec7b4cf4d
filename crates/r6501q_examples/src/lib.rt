// The papers' examples of whole clocks and runs of the R6501Q, as theorems; no code.
#![tactic(auto)]
