// What is proved of the entry points themselves: what their promises mean in one piece, that no second answer fits them, and which programs they
// shut out. Statements stand in specs/, theorems in proofs/; nothing runs here.
#![tactic(auto)]
