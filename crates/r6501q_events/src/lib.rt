// Event clocks, the gap before the next one and the gap passed, as definitions, with their laws; no code.
#![tactic(auto)]
