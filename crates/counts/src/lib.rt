// How many models, meters and certificates a store holds, counted before a byte is written.
//
// Certificates come in key order, so one is under another model or meter than the one before it exactly if it is the
// first of that model or meter: a tally keeps three numbers and the last key. `count_of` is the dry walk over all keys;
// it tells whether a walk would meet damage, and the tally of what it would find.
//
// Below stand `dry`, which steps from leaf to leaf, and `head`, which reads entries.

#![tactic(auto)]

ghost use Rattle.std.specs.Prelude.{◌≡◌, true, ◌+◌, ◌*◌, ◌≤◌, ◌<◌, length, drop};
ghost use Rattle.rules.specs.Layout.{leaf_header, cert_size, leaf_room};
ghost use Rattle.rules.specs.Entry.{cut};
ghost use Rattle.rules.specs.Page.{read_each, cert_in};
ghost use Rattle.rules.specs.Table.{fit0};
ghost use Rattle.counts.specs.Tally.{everything, one_more, counted, counted_in, counted_all, Few, ahead_of};

use dry::KeyRange;
use head::{Table, cert_key, read_head};
use rules::{Asked, LAST_KEY, MODEL, MOST, SERIAL};

// How many there are so far, and the last key; 0 is no key. The default stands before the first certificate.
//
// That there are no more models or meters than certificates is asked in clauses, and is no fact of the type: definitions
// build tallies too, and each would have to carry the proof.
#[derive(Clone, Copy, Default)]
pub struct Tally {
    pub models: usize,
    pub meters: usize,
    pub certs: usize,
    pub last: u64,
}

// A key over one of these is its meter, its model.
pub const BY_METER: u64 = SERIAL;

pub const BY_MODEL: u64 = MODEL;

// Room for all: what a count of four bytes can say. No walk finds as many.
const ROOM: usize = 4_294_967_295;

// Every key, and room for all.
pub fn everything() -> Asked
    ensures { result ≡ everything }
{
    Asked {
        low: 0,
        high: LAST_KEY,
        room: ROOM,
    }
}

// One more, unless both keys stand under the same.
fn one_more(by: u64, last: u64, key: u64, count: usize) -> usize
    requires { (0 < by) × (count ≤ 4294967295) }
    ensures { result ≡ one_more by last key count }
{
    if last / by == key / by {
        return count;
    }
    count + 1
}

// One certificate more.
pub fn counted(c: Tally, key: u64) -> Tally
    requires { Few c × (c.certs ≤ 4294967295) }
    ensures { result ≡ counted c key }
{
    let models = one_more(BY_MODEL, c.last, key, c.models);
    let meters = one_more(BY_METER, c.last, key, c.meters);
    let certs = c.certs + 1;
    Tally {
        models,
        meters,
        certs,
        last: key,
    }
}

// The same, if its key lies in a range.
fn counted_in(range: KeyRange, c: Tally, key: u64) -> Tally
    requires { Few c × (c.certs ≤ 4294967295) }
    ensures { result ≡ counted_in range.low range.high c key }
{
    if !range.holds(key) {
        return c;
    }
    counted(c, key)
}

// The certificates of a leaf that lie in a range.
fn count_leaf(page: &[u8], entries: usize, range: KeyRange, c: Tally) -> Tally
    requires { (leaf_header + cert_size * entries ≤ length page.now) × (entries ≤ leaf_room) × Few c × (c.certs + leaf_room ≤ 4294967295) }
    ensures { result ≡ counted_all c (cut range.low range.high (read_each cert_in cert_size entries (drop leaf_header page.now))) }
{
    let mut tally = c;
    for j in 0..entries {
        tally = counted_in(range, tally, cert_key(page, j));
    }
    tally
}

// The tally of what a walk over all keys finds; where it meets a damaged place, of what it found before that.
pub fn count_of(table: Table<'_>) -> Result<Tally, Tally>
    requires { fit0 table.pages table.bytes.now ≡ true }
    ensures { result ≡ ahead_of table.entry.pages table.entry.bytes.now }
{
    let a = everything();
    let mut at = dry::at_root();
    let mut tally = Tally::default();
    let mut mended = [false; MOST];
    // No index: each leaf adds what it has, and the walk ends when there is no more room.
    while tally.certs < a.room {
        let Ok(next) = dry::next_leaf(table, a, at, &mut mended) else {
            return Err(tally);
        };
        let Some(leaf) = next else {
            return Ok(tally);
        };
        let page = table.page(leaf.page as usize);
        let entries = read_head(page).count as usize;
        let range = KeyRange {
            low: leaf.place.low,
            high: leaf.place.high,
        };
        tally = count_leaf(page, entries, range, tally);
        at = leaf.after;
    }
    Ok(tally)
}
