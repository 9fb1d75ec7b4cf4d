// The theory of leaps, over any machine that goes clock by clock: definitions and laws, no code.
#![tactic(auto)]
