// The serial channel. A tick is an underflow of counter A, and moves the transmitter in either mode and the
// asynchronous receiver; the shifting receiver goes by rises of PA4. A half that is off does not move. Here are the
// ranges that both halves keep and the papers' examples of both; no code.
#![tactic(auto)]
