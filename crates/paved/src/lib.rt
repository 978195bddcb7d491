// What an engine answers that folds the drained rules. It takes their tables and the rows of their cuts, and answers how many pages of the folded rules there
// are in the buffer that was lent; or it refuses (6, 14), at the rule after which that was met. There are two engines, `columns` and `plain`: what their
// answers say stands in specs/, and the laws by which numbered days of boxes come to pages, the same for both, in proofs/.
#![tactic(auto)]
