// Tight wording: no second outcome satisfies a contract.
//
// This crate has no code. `Tight` is what every crate above proves of its public functions, in its proofs/Tight.antt:
// two outcomes that both meet the contract, for the same arguments, are one outcome, in its result and in every list
// lent to be written. `TightLent` is the same of a function that hands back a part of what it was lent: there what is
// read of the part counts, and not where it lies.
//
// Nothing stands below it.

#![tactic(auto)]
