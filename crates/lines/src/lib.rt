// What is proved about the definition of lines, in proofs/; nothing runs here.
#![tactic(auto)]
