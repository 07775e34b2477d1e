// What those who read, insert and withdraw may rely on: theorems about the rules, said of the calls. There is no code
// here.
//
// specs/ has each promise as a short definition that needs no proof to be read; proofs/ has a theorem of the same name
// for each. A record that is found is that of the very key asked for; what newest and list hand out was read from a
// leaf that they entered. Lookup, newest, has-any and list answer by one list of certificates. An opening that enters
// page after page would answer as the rules' does. A walk leaves every page as it was or mended for a place it asked
// for, and its report tells which. An insert takes so many pages, changes no others, and adds one key. A withdrawal
// changes one leaf and takes one key away.
//
// Below stand `rules`, which the promises are about, `answers`, which follows a walk place by place, and the laws of
// `enter`, `way` and `apply` on tables of any bytes.

#![tactic(auto)]
