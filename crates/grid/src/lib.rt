// Groups of a map over points, and the same over boxes; all of it stands in specs/ and proofs/, and nothing runs here.
#![tactic(auto)]
