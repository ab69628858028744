// The words of a design's reads say its reads: theorems, no code.
#![tactic(auto)]
