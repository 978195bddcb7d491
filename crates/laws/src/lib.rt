// Laws of lists and tests that the kit lacks; they stand in specs/ and proofs/, and nothing runs here.
#![tactic(auto)]
