// The entries of a page as runs of bytes: where they start, their size, the spot of a key among them, and runs copied
// and set to zero.
//
// The spot of a key is the number of entries before the first one with a greater key. Every function that writes says
// which bytes it sets, and all others stay.
//
// Below stand `fields`, numbers in bytes; `head`, which says what an inner page's entry holds; and `rules`, which says what
// the bytes of a page mean.

#![tactic(auto)]

ghost use Rattle.std.specs.Prelude.{◌≡◌, ◌+◌, ◌*◌, ◌-◌, ◌≤◌, ◌<◌, length, take, drop, replicate};
ghost use Rattle.std.proofs.lemmas.List.Edits.{sets};
ghost use Rattle.rules.specs.Layout.{cert_size, child_size};
ghost use Rattle.rules.specs.Page.{cert_bytes, child_bytes};
ghost use Rattle.rules.specs.Insert.{new_child};
ghost use Rattle.entries.specs.Spot.{new_cert};

mod layout;

use head::ChildEntry;
pub use layout::Entries;
use rules::{AT_CHILD, AT_CHILD_BIRTH, AT_CHILD_PREVIOUS, AT_RECORD};

// Bytes from `from` on, put over as many at `to`, as they were before: the two runs may share bytes.
#[tactic(auto, using(crate::proofs::Sets::copied_within))]
pub fn copy(bytes: &mut [u8], to: usize, from: usize, len: usize)
    requires to_in_bounds { to + len ≤ length bytes.old }
    requires from_in_bounds { from + len ≤ length bytes.old }
    ensures { bytes.new ≡ sets bytes.old to (take len (drop from bytes.old)) }
{
    bytes.copy_within(from..from + len, to);
}

// Bytes from `at` up to `end` become zero.
pub fn clear(bytes: &mut [u8], at: usize, end: usize)
    requires at_le_end { at ≤ end }
    requires end_in_bounds { end ≤ length bytes.old }
    ensures { bytes.new ≡ sets bytes.old at (replicate (end - at) 0) }
{
    bytes[at..end].fill(0);
}

// An entry of a leaf. Two numbers that nobody holds as one value.
pub fn write_cert(page: &mut [u8], at: usize, key: u64, value: u32)
    requires { at + cert_size ≤ length page.old }
    ensures { page.new ≡ sets page.old at (cert_bytes (new_cert key value)) }
{
    fields::put64(page, at, key);
    fields::put32(page, at + AT_RECORD, value);
}

// An entry of an inner page.
pub fn write_child(page: &mut [u8], at: usize, entry: ChildEntry)
    requires { at + child_size ≤ length page.old }
    ensures { page.new ≡ sets page.old at (child_bytes (new_child entry.birth entry.key entry.child entry.previous)) }
{
    fields::put64(page, at, entry.key);
    fields::put16(page, at + AT_CHILD, entry.child);
    fields::put16(page, at + AT_CHILD_PREVIOUS, entry.previous);
    fields::put32(page, at + AT_CHILD_BIRTH, entry.birth);
}
