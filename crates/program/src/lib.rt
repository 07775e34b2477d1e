// The bench program as a whole: what it prints for what it reads.
//
// This crate has no code. specs/Program.antt says the program as one definition, from the bytes of standard input to
// those of standard output, in the words of the rules. proofs/ has three theorems: `program_prints`, that the driver's
// steps, byte by byte, print that; `transcript`, that document 01's own lines print what it says, by computing; and
// `line_event`, that a line is an event of the rules' histories, so that demand 3 speaks of the bench program's store.
//
// Below stand `rules`, `lines`, `words` and `driver`.

#![tactic(auto)]
