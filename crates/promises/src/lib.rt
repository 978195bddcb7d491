// What the definition promises: statements in specs/, theorems in proofs/; nothing runs here.
#![tactic(auto)]
