// The key ledger as definitions: what its calls answer and leave, lists of calls, and the theorems
// about them. The code is in `ledger`.
#![tactic(auto)]
