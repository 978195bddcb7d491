// From the boxes of a paving to the points: the lists after each rule, and the groups that are popped; all of it stands in specs/ and
// proofs/, and nothing runs here.
#![tactic(auto)]
