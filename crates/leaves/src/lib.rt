// From leaf to leaf in key order: a cursor, and the step that goes on from it.
//
// `next` goes down to the leaf of a key as a way from page 0 does: it leaves the table as the rules' `way_of` leaves it,
// answers with that way's leaf, and adds to the report what that way mends. It need not begin at page 0, though. A cursor
// has the numbers of the inner pages above the leaf before, and a step goes on from the deepest of them whose range holds
// the key. Those pages stand in the table as they were entered, so to enter them again would change and report nothing:
// the theorem `resumed` says so of the rules, for every table.
//
// A leaf says where its range ends; the leaf of the key behind that is the next one. So `Leaves` goes over the leaves of a
// range, one step after the other. `spot` serves whoever walks: how many of the leaf's keys are not above a last one,
// guessed while the leaf is tested, as `way` guesses.
//
// Below stand `way`, which goes one page down, and `enter`, which enters one place.

#![tactic(auto)]

ghost use Rattle.std.specs.Prelude.{◌≡◌, true, ◌*◌, ◌≤◌, length};
ghost use Rattle.std.proofs.Math.Option.{some};
ghost use Rattle.rules.specs.Layout.{page_size};
ghost use Rattle.rules.specs.Test.{between};
ghost use Rattle.rules.specs.Table.{fit0};
ghost use Rattle.rules.specs.Walk.{way_of, way_report};
ghost use Rattle.leaves.specs.Cursors.{no_cursor, holding_in, levels_in, place_in, Lies, LeadsOn, Kept, nexting, next_of};
ghost use Rattle.leaves.specs.Walks.{walk_over, stepping, key_behind, step_of};

use enter::Above;
use head::{Head, page_at, read_head};
use rules::{LEAF, LEVELS, Place, Report};

// A leaf that was stepped to: its number and count, the key that led to it, where its range ends, how many of its keys are
// not above the last one wanted, the cursor behind it, and the report so far.
#[derive(Clone, Copy)]
pub struct Leaf {
    pub child: u16,
    pub count: u16,
    pub from: u64,
    pub high: u64,
    pub spot: usize,
    pub behind: Above,
    pub report: Report,
}

// The cursor of a first step: nothing is kept. Named, since the contracts call it no_cursor.
pub fn start() -> Above
    ensures { result ≡ no_cursor }
{
    Above { parent: 0, top: 0 }
}

// The range of a page holds a key.
fn holds(head: Head, key: u64) -> bool
    ensures { result ≡ between head.low head.high key }
{
    head.low <= key && key <= head.high
}

// The pages that the way of a key shares with the last one. Above a page that is passed over stands the root, which
// holds every key.
fn holding(t: &[u8], cursor: Above, key: u64) -> Above
    requires { Lies t.now cursor }
    ensures { result ≡ holding_in key t.now cursor }
{
    if cursor.parent == 0 {
        return cursor;
    }
    let head = read_head(page_at(t, cursor.parent as usize));
    if holds(head, key) {
        return cursor;
    }
    Above {
        parent: cursor.top,
        top: 0,
    }
}

// How many levels lie below.
fn levels(cursor: Above) -> usize
    ensures { result ≡ levels_in cursor }
{
    match (cursor.parent, cursor.top) {
        (0, _) => LEVELS,
        (_, 0) => LEVELS - 1,
        _ => LEVELS - 2,
    }
}

// The place that a key leads to below the deepest page, or the root's.
fn place(t: &[u8], cursor: Above, key: u64) -> Place
    requires { (page_size ≤ length t.now) × Lies t.now cursor × LeadsOn key t.now cursor }
    ensures { place_in key t.now cursor ≡ some result }
{
    if cursor.parent == 0 {
        return head::root_place(t);
    }
    let head = read_head(page_at(t, cursor.parent as usize));
    let guess = way::look_ahead(t, cursor.parent, key, key);
    way::place_below(t, cursor.parent, head, key, guess)
}

// Down to the leaf of a key. Damage ends the step, and what was mended above it is reported.
pub fn next(
    t: &mut [u8],
    n: usize,
    c: u32,
    key: u64,
    upto: u64,
    cursor: Above,
    mut report: Report,
) -> Result<Leaf, Report>
    requires { (length t.old ≡ n * page_size) × (fit0 n t.old ≡ true) × Kept n t.old cursor }
    ensures { nexting t.new result
        ≡ next_of key upto (way_of n c key t.old) (way_report n c key t.old report) }
{
    let mut above = holding(t, cursor, key);
    let mut e = place(t, above, key);
    for _ in 0..levels(above) {
        let guess = way::look_ahead(t, e.child, key, upto);
        let Some(entered) = enter::enter(t, n, c, above, e) else {
            return Err(report);
        };
        let page = entered.head;
        report = report.add(entered.reason);
        if page.kind == LEAF {
            let spot = way::spot_at(t, e.child, page.count, upto, guess);
            return Ok(Leaf {
                child: e.child,
                count: page.count,
                from: key,
                high: e.high,
                spot,
                behind: above,
                report,
            });
        }
        let top = above.parent;
        above = Above {
            parent: e.child,
            top,
        };
        e = way::place_below(t, e.child, page, key, guess);
    }
    Err(report)
}

// A walk over the leaves of a range: where it goes on, which is nowhere behind the last leaf and behind damage, the last
// key of the range, the cursor, and what was mended so far.
//
// A step mends pages of the table, and those who walk read it between two steps. So the table is lent to each step alone,
// while an iterator of the library would hold it for the whole walk.
#[derive(Clone, Copy)]
pub struct Leaves {
    pub key: Option<u64>,
    pub high: u64,
    pub cursor: Above,
    pub report: Report,
}

// The key behind a leaf that ends at one, while the range goes on there.
fn behind(end: u64, high: u64) -> Option<u64>
    ensures { result ≡ key_behind end high }
{
    if end < high {
        return Some(end + 1);
    }
    None
}

impl Leaves {
    pub fn over(low: u64, high: u64) -> Self
        ensures { result ≡ walk_over low high }
    {
        Leaves {
            key: Some(low),
            high,
            cursor: start(),
            report: Report::nothing(),
        }
    }

    // The next leaf, or damage. With damage the walk is over.
    pub fn next(&mut self, t: &mut [u8], n: usize, c: u32) -> Option<Result<Leaf, Report>>
        requires { (length t.old ≡ n * page_size) × (fit0 n t.old ≡ true) × Kept n t.old self.old.cursor }
        ensures { stepping t.new result self.new ≡ step_of n c t.old self.old }
    {
        let key = self.key.take()?;
        let step = next(t, n, c, key, self.high, self.cursor, self.report);
        match step {
            Ok(leaf) => {
                self.key = behind(leaf.high, self.high);
                self.cursor = leaf.behind;
                self.report = leaf.report;
            }
            Err(report) => {
                self.report = report;
            }
        }
        Some(step)
    }
}
