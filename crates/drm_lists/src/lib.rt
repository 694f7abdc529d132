//! Lists: what stands where, what a change of one element leaves, what a search finds. It has no code: the crates above
//! cite its lemmas (`proofs/`), each of which stands here once.
#![tactic(auto)]
