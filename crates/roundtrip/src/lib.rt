// What those who exchange files may rely on: theorems about the rules. There is no code here.
//
// What a store holds is a set of certificates, so its file is accepted. Read into a store fresh from format and open,
// it gives the same listing, provided every certificate is done, and that store's file is the same, byte for byte.
//
// Below stand `exchange`, which has the file and the rule of the call that reads it, and `reading`, by whose theorems
// every store of a history answers by one list of certificates.

#![tactic(auto)]
