// What a dry walk counts: the certificates of one leaf that are asked for.
//
// Below stand `head`, which reads headers and entries, and `rules`.
ghost use Rattle.std.specs.Prelude.{◌≡◌, ◌+◌, ◌*◌, ◌≤◌, length, drop};
ghost use Rattle.rules.specs.Layout.{leaf_header, cert_size};
ghost use Rattle.rules.specs.Page.{read_each, cert_in};
ghost use Rattle.dry.specs.Count.{tallied, tally, tally_all, lies_in, Leaf, tally_at};

use crate::KeyRange;
use head::{Head, Table, cert_key};
use rules::{Asked, Place};
use std::cmp::{max, min};

// One certificate more, if its key is asked for and there is room.
fn tally_key(range: KeyRange, room: usize, key: u64, count: usize) -> usize
    ensures { result ≡ tallied range.low range.high room key count }
{
    if !range.holds(key) {
        return count;
    }
    if count >= room {
        return count;
    }
    count + 1
}

fn tally_each(page: &[u8], entries: usize, range: KeyRange, room: usize, count: usize) -> usize
    requires { leaf_header + cert_size * entries ≤ length page.now }
    ensures { result ≡ tally range.low range.high room (read_each cert_in cert_size entries (drop leaf_header page.now)) count }
{
    let mut found = count;
    for j in 0..entries {
        found = tally_key(range, room, cert_key(page, j), found);
    }
    found
}

// All of them, while there is room.
fn tally_all(entries: usize, room: usize, count: usize) -> usize
    ensures { result ≡ tally_all entries room count }
{
    count + min(entries, room.saturating_sub(count))
}

// Whether a page's range lies in another one.
fn lies_in(head: Head, range: KeyRange) -> bool
    ensures { result ≡ lies_in head range.low range.high }
{
    if range.low > head.low {
        return false;
    }
    head.high <= range.high
}

// The certificates of a leaf, as a place shows them, that are asked for. A list asks for most leaves whole: those are
// not looked through. The narrower one of the two ranges has the larger low and the smaller high.
pub fn tally_leaf(
    table: Table<'_>,
    page: usize,
    head: Head,
    a: Asked,
    e: Place,
    count: usize,
) -> usize
    requires { Leaf table.bytes.now page head }
    ensures { result ≡ tally_at table.entry.bytes.now page a e count }
{
    let entries = head.count as usize;
    let range = KeyRange {
        low: max(a.low, e.low),
        high: min(a.high, e.high),
    };
    if lies_in(head, range) {
        return tally_all(entries, a.room, count);
    }
    tally_each(table.page(page), entries, range, a.room, count)
}
