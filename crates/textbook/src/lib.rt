// The textbook's filter and the law that the plain filter is it at exact arithmetic (specs/, proofs/).
#![tactic(auto)]
