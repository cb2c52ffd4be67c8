// Laws of signed numbers that proofs of other crates stand on; the code uses `<` and `min` of std.
#![tactic(auto)]
