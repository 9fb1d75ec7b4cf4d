// The R6501Q as an instance of the theory of leaps, and the papers' sentences as laws of its plain clocks; no code.
#![tactic(auto)]
