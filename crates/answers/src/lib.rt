// The answers: demand 1, and for each answer of each call when it is given.
//
// This crate has no code. specs/ says, of the rules: `When`, that each number is given exactly when
// document 01's table says, in its words and order; `Demand1`, which numbers each call gives and what a refused call
// leaves; `Levels`, that no walk ends for want of levels, so what ends one is damage. proofs/ proves them: `whens`,
// `demand1`, `levels`. The contracts of the calls are equations with the rules, so all of it holds of the code.
//
// Below stand `rules`, `fields` and `exchange`.

#![tactic(auto)]
