// Walks: how a function over a lent run of records is proved by hand. There is no code here:
// `proofs/` has the shared steps, and knows nothing of the market.
#![tactic(auto)]
