// The two lent tables as wholes: their lengths, and bytes that go from one end to the other.
//
// `good_lengths` and `lengths_for` are the tests that stand first in every call, equal to the rules' tests. `copy` and
// `clear` change each byte of a table.
//
// Below stands `rules`.

#![tactic(auto)]

ghost use Rattle.std.specs.Prelude.{◌≡◌, length, replicate};
ghost use Rattle.rules.specs.Table.{good_lengths};
ghost use Rattle.rules.specs.Call.{lengths_for};
ghost use Rattle.rules.specs.declared.Session.{Session};

use rules::{FEWEST, MOST, PAGE};

// Two tables of the same length, of 4 to 128 whole pages.
pub fn good_lengths(working: &[u8], stable: &[u8]) -> bool
    ensures { result ≡ good_lengths working.now stable.now }
{
    let bytes = working.len();
    if bytes != stable.len() {
        return false;
    }
    if bytes % PAGE != 0 {
        return false;
    }
    let n = bytes / PAGE;
    (FEWEST <= n) & (n <= MOST)
}

// The same with a session's number of pages.
pub fn lengths_for(n: u16, working: &[u8], stable: &[u8]) -> bool
    ensures { (s : Session) → s.n ≡ n → result ≡ lengths_for s working.now stable.now }
{
    if good_lengths(working, stable) {
        return n as usize == working.len() / PAGE;
    }
    false
}

// One table becomes a copy of another.
pub fn copy(to: &mut [u8], from: &[u8])
    requires { length from.now ≡ length to.old }
    ensures { to.new ≡ from.now }
{
    to.copy_from_slice(from);
}

// Every byte becomes zero.
pub fn clear(table: &mut [u8])
    ensures { table.new ≡ replicate (length table.old) 0 }
{
    table.fill(0);
}
