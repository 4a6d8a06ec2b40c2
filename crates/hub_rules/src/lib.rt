// The hub program as definitions: what a line is answered, the whole run and the run byte by byte, and
// their laws. The code begins in `hub_answer`.
#![tactic(auto)]
