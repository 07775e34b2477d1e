// What a list does with the leaves of its range, once it is known whether damage lies ahead: their certificates are
// written into two lent lists, in key order, or the pages are only mended.
//
// `fill` leaves the table as the rules' `walk_of` leaves it. The certificates that the rules find stand in the lists
// from the start on, their keys in one and their records in the other, and the places behind them stay. It asks that no
// damaged place lies ahead, which `dry` finds out before a place of the lists is written. `fill_known` does the same
// where nothing is to be mended, over the steps of the dry walk, and `mend` goes to the end, or as far as the damage,
// and writes no list. Each is one loop from leaf to leaf.
//
// Below stand `leaves` and `dry`, which step from leaf to leaf, `seek`, which finds a key on a page, and `head`.

#![tactic(auto)]

ghost use Rattle.std.specs.Prelude.{◌≡◌, true, ◌+◌, ◌*◌, ◌≤◌, length};
ghost use Rattle.rules.specs.Layout.{page_size, leaf_header, cert_size, leaf_room, last_key};
ghost use Rattle.rules.specs.Entry.{rising};
ghost use Rattle.rules.specs.Table.{page_at, fit0};
ghost use Rattle.rules.specs.Walk.{walk_of};
ghost use Rattle.entries.specs.Spot.{keys_in, spot_of, start_of};
ghost use Rattle.dry.specs.Walk.{dry_over};
ghost use Rattle.fill.specs.Fills.{listing, lists_of, filling, filled_in, mending, mended_in, Roomy, HasRoom, Calm, certs_from, listed, asked};

use entries::Entries;
use head::{Table, read_head};
use leaves::Leaves;
use rules::{Asked, MOST, Report};

// How many certificates were written, and what was mended on the way.
#[derive(Clone, Copy)]
pub struct Filled {
    pub count: usize,
    pub report: Report,
}

// How many of a leaf's keys are not above one. As a rule that is none or all of them, so both ends are tried first.
fn spot(page: &[u8], count: usize, key: u64) -> usize
    requires { (leaf_header + cert_size * count ≤ length page.now) × (length page.now ≤ page_size)
        × (rising (keys_in leaf_header cert_size count page.now) ≡ true) }
    ensures { result ≡ spot_of key (keys_in leaf_header cert_size count page.now) }
{
    if count == 0 {
        return 0;
    }
    if head::cert_key(page, 0) > key {
        return 0;
    }
    if head::cert_key(page, count - 1) <= key {
        return count;
    }
    seek::seek(page, Entries::certs(count), key)
}

// How many of a leaf's keys are below one.
fn start(page: &[u8], count: usize, low: u64) -> usize
    requires { (leaf_header + cert_size * count ≤ length page.now) × (length page.now ≤ page_size)
        × (rising (keys_in leaf_header cert_size count page.now) ≡ true) }
    ensures { result ≡ start_of low (keys_in leaf_header cert_size count page.now) }
{
    if low == 0 {
        return 0;
    }
    spot(page, count, low - 1)
}

// So many certificates of a leaf, from one on, into the lists behind those found. By index: one page fills two lists at
// one offset.
fn copy(
    page: &[u8],
    first: usize,
    many: usize,
    keys: &mut [u64],
    records: &mut [u32],
    filled: usize,
) -> usize
    requires { (leaf_header + cert_size * (first + many) ≤ length page.now) × (length page.now ≤ page_size)
        × (filled + many ≤ length keys.old) × (filled + many ≤ length records.old) }
    ensures { listing result keys.new records.new
        ≡ listed (certs_from page.now first many) filled keys.old records.old }
{
    for j in 0..many {
        keys[filled + j] = head::cert_key(page, first + j);
        records[filled + j] = head::cert_record(page, first + j);
    }
    filled + many
}

// The certificates of a leaf that are asked for.
fn fill_leaf_at(
    t: &[u8],
    page: usize,
    count: usize,
    a: Asked,
    keys: &mut [u64],
    records: &mut [u32],
    filled: usize,
) -> usize
    requires { ((page + 1) * page_size ≤ length t.now) × (count ≤ leaf_room) × (rising (keys_in leaf_header cert_size count (page_at t.now page)) ≡ true)
        × (filled ≤ a.room) × Roomy a keys.old records.old }
    ensures { listing result keys.new records.new
        ≡ listed (asked a filled (certs_from (page_at t.now page) 0 count)) filled keys.old records.old }
{
    let leaf = head::page_at(t, page);
    let first = start(leaf, count, a.low);
    let past = spot(leaf, count, a.high);
    let many = past.saturating_sub(first).min(a.room - filled);
    copy(leaf, first, many, keys, records, filled)
}

// Where it is known that the walk would mend nothing: the table stays as it lies and every page ahead fits its place, so
// none is tested again.
pub fn fill_known(t: Table<'_>, a: Asked, keys: &mut [u64], records: &mut [u32]) -> usize
    requires { Calm t.pages a t.bytes.now × Roomy a keys.old records.old }
    ensures { listing result keys.new records.new
        ≡ lists_of keys.old records.old (dry_over t.entry.pages a t.entry.bytes.now).found }
{
    let mut at = dry::at_root();
    let mut filled = 0;
    let mut mended = [false; MOST];
    // No index: each leaf adds what it has, and the walk ends when there is no more room.
    while filled < a.room {
        let Some(leaf) = dry::next_known(t, a, at, &mut mended) else {
            return filled;
        };
        let page = leaf.page as usize;
        let head = read_head(t.page(page));
        filled = fill_leaf_at(t.bytes, page, head.count as usize, a, keys, records, filled);
        at = leaf.after;
    }
    filled
}

// Mending on the way, where no damaged place lies ahead.
pub fn fill(
    t: &mut [u8],
    n: usize,
    c: u32,
    a: Asked,
    keys: &mut [u64],
    records: &mut [u32],
) -> Filled
    requires { (length t.old ≡ n * page_size) × (fit0 n t.old ≡ true) × (a.low ≤ a.high) × (a.high ≤ last_key)
        × Roomy a keys.old records.old × ((walk_of n c a t.old).whole ≡ true) }
    ensures { filling t.new result keys.new records.new
        ≡ filled_in keys.old records.old (walk_of n c a t.old) }
{
    let mut walk = Leaves::over(a.low, a.high);
    let mut filled = 0;
    // No index: each leaf adds what it has, and the walk ends when there is no more room.
    while filled < a.room {
        let Some(Ok(leaf)) = walk.next(t, n, c) else {
            break;
        };
        let page = leaf.child as usize;
        let asked = Asked {
            low: leaf.from,
            high: a.high,
            room: a.room,
        };
        filled = fill_leaf_at(t, page, leaf.count as usize, asked, keys, records, filled);
    }
    Filled {
        count: filled,
        report: walk.report,
    }
}

// The walk that only mends, to its end or up to the damaged place that lies ahead. There is room to the end, so nothing
// is counted.
pub fn mend(t: &mut [u8], n: usize, c: u32, a: Asked) -> Report
    requires { (length t.old ≡ n * page_size) × (fit0 n t.old ≡ true) × (a.low ≤ a.high) × (a.high ≤ last_key)
        × HasRoom a (walk_of n c a t.old) }
    ensures { mending t.new result ≡ mended_in (walk_of n c a t.old) }
{
    let mut walk = Leaves::over(a.low, a.high);
    while let Some(Ok(_)) = walk.next(t, n, c) {}
    walk.report
}
