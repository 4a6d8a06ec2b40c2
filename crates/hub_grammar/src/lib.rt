// The hub's lines as definitions: the grammar, and that reading a line is the inverse of writing it.
// The code is in `hub_text`.
#![tactic(auto)]
