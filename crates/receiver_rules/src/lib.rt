// A receiver as definitions: what a making and an opening answer and leave, lists of openings, and the
// theorems about them. The code is in `receiver`.
#![tactic(auto)]
