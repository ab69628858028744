// That the calls of the builder are well formed, and that its temporaries exist and are unique: theorems only, in
// specs/.
#![tactic(auto)]
