// AES of FIPS 197 as definitions, and the laws about them; the code is in `aes`. An edit of a
// definition is tried here, where it costs little.
#![tactic(auto)]
