// The place of a file's first bad item: theorems about the judgement of `exchange`. There is no code here.
//
// specs/ says of a place what a reader may take it for: everything before it could still begin a good file, with what
// stands there nothing could. proofs/ shows it of every file that is refused.
//
// Below stands `exchange`.

#![tactic(auto)]
