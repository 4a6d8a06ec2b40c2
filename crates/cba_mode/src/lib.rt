// The mode CBA v1-1 over any block cipher: its definitions and their laws. What it has in code begins
// in `cba_steps`.
#![tactic(auto)]
