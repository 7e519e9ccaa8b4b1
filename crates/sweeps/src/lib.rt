// The laws of a sweep (`proofs/Sweep.antt`), which the tests of refusals 3 to 8 are. No code of its own.
#![tactic(auto)]
