// The climb laws: a walk over a range is a climb from the root to one leaf after another.
//
// This crate has no code. specs/ says `rest`, the rules' walk that goes on from what it has, `after`, what is asked for
// behind a leaf, and `leaves`, the climbs one after the other. proofs/ proves, for every table: one climb is a step of
// the walk (`Climb`), so that climbing leaf after leaf leaves, finds and reports what the rules' `walk_of` does
// (`Leaves`).
//
// Below stand `rules`, `enter` and `way`, for their laws about one place and one way.

#![tactic(auto)]
