// Instructions of a span that read a register of the chip, whose value stays in the span.
#![tactic(auto)]

// By asking: one question is answered.
pub mod steady;

// Operands that are registers in the zero page: the outcome is known without asking.
pub mod known;
