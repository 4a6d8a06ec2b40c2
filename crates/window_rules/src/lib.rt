// A window against repeats as definitions, on numbers alone: when a counter is a repeat, the window
// after one is recorded, and the theorems about them. The code is in `receiver`.
#![tactic(auto)]
