// The certificate key of a call: made of model, serial and issue, none of which may be zero.
//
// Both functions are equal to the rules' definitions of the same name. The three fields fill the key's 64 bits, so no
// key is too large and no two certificates share one.
//
// Below stands `rules`.

#![tactic(auto)]

ghost use Rattle.std.specs.Prelude.{◌≡◌};
ghost use Rattle.rules.specs.Key.{key_of, good_parts};

use rules::{MODEL, SERIAL};

// No part of the key is zero.
pub fn good_parts(model: u16, serial: u32, issue: u16) -> bool
    ensures { result ≡ good_parts model serial issue }
{
    if model == 0 {
        return false;
    }
    if serial == 0 {
        return false;
    }
    issue != 0
}

pub fn key_of(model: u16, serial: u32, issue: u16) -> u64
    ensures { result ≡ key_of model serial issue }
{
    model as u64 * MODEL + serial as u64 * SERIAL + issue as u64
}
