#![tactic(auto)]

// What is promised of the calls, and the proofs. The promises stand in specs/Promises.antt; there is no code.
