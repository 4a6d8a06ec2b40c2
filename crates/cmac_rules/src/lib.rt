// CMAC, and the marks of logs made with it, as definitions: the checks, answers and outputs of making
// and checking a mark, and what is proved of them. The code is in `cmac`.
#![tactic(auto)]
