// The mathematics that has no video in it, all in specs/ and proofs/: the greatest, the count and the lowest below a number; folding a list
// from the left and cutting it; differences of naturals as integers; tests and what they mean.
// It knows nothing and must never know a rate, a packet or a frame.
#![tactic(auto)]
