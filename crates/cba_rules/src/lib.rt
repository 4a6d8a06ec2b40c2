// Plain sealing and plain opening as definitions: their checks, answers and outputs, and the three
// demands with their proofs. The code is in `plain`.
#![tactic(auto)]
