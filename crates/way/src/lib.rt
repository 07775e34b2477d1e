// The way of one key: the pages that a call for one key enters, from the root to a leaf, mending as it goes.
//
// `way_of` leaves the table as the rules' `way_of` leaves it, and hands back each page entered: the place that asked for
// it and its header, the leaf first. A way is at most three pages long.
//
// Each page is searched before it is tested: the processor then searches while it tests, and a search is mostly waiting.
// What such a search finds is a guess, and nothing is done by it until the page is known to be sound and the guess is
// confirmed there.
//
// Below stand `enter`, which enters one place, and `seek`, which finds a key on a page.

#![tactic(auto)]

ghost use Rattle.std.specs.Prelude.{◌≡◌, true, [], ◌+◌, ◌*◌, ◌≤◌, ◌<◌, length};
ghost use Rattle.std.proofs.Math.Option.{some};
ghost use Rattle.rules.specs.Layout.{page_size, leaf_header, cert_size, leaf_room};
ghost use Rattle.rules.specs.Entry.{rising};
ghost use Rattle.rules.specs.Table.{page_at, read, fit0};
ghost use Rattle.rules.specs.Place.{pick};
ghost use Rattle.rules.specs.Report.{nothing};
ghost use Rattle.rules.specs.Walk.{way_of, way_report};
ghost use Rattle.entries.specs.Spot.{keys_in, spot_of};
ghost use Rattle.way.specs.Ahead.{ahead_of};
ghost use Rattle.way.specs.Ways.{no_step, places_below, Leads, above_in, told, end_in, reported, went, ended};

use enter::Above;
use entries::Entries;
use few::{Few, Spare};
use head::Head;
use rules::{AT_COUNT, AT_KIND, INNER_ROOM, LEAF, LEAF_ROOM, LEVELS, Place, Report};

// A page entered: the place that asked for it, and its header.
#[derive(Clone, Copy, Default)]
pub struct Step {
    pub place: Place,
    pub head: Head,
}

impl Spare for Step {
    ghost spare_is = { no_step };

    fn spare() -> Step {
        Step::default()
    }
}

// The pages entered, the last one first: a leaf at the end of a whole way, its parent, and the page above that.
pub type Way = Few<Step, LEVELS>;

// A way, unless it met a damaged place, and what was mended on it.
#[derive(Clone, Copy)]
pub struct Went {
    pub way: Option<Way>,
    pub report: Report,
}

// The end of a way: its leaf, how many pages were entered, and how many of the leaf's keys are not above the one sought.
#[derive(Clone, Copy)]
pub struct End {
    pub len: usize,
    pub leaf: Step,
    pub spot: usize,
}

// The end of a way, unless it met a damaged place, and what was mended on it.
#[derive(Clone, Copy)]
pub struct Ended {
    pub end: Option<End>,
    pub report: Report,
}

// The pages above the next one.
fn above(way: &[Step]) -> Above
    ensures { result ≡ above_in way.now }
{
    match way {
        [] => Above { parent: 0, top: 0 },
        [parent] => Above {
            parent: parent.place.child,
            top: 0,
        },
        [parent, top, ..] => Above {
            parent: parent.place.child,
            top: top.place.child,
        },
    }
}

// Where halving ends on page i of a table, which nobody has tested: in an inner page for the key of the way, in a leaf for
// the last key wanted there. A page that is not sound may give any number, so every use of it begins with its
// confirmation.
pub fn look_ahead(table: &[u8], i: u16, key: u64, upto: u64) -> usize
    requires { (i + 1) * page_size ≤ length table.now }
    ensures { result ≡ ahead_of key upto (page_at table.now i) }
{
    let page = head::page_at(table, i as usize);
    let count = fields::get16(page, AT_COUNT);
    if fields::get16(page, AT_KIND) == LEAF {
        if count > LEAF_ROOM {
            return 0;
        }
        return seek::guess(page, Entries::certs(count as usize), upto);
    }
    if count > INNER_ROOM {
        return 0;
    }
    seek::guess(page, Entries::children(count as usize), key)
}

// The place that a page's entries ask for at a key, below a page that was entered, by its header.
pub fn place_below(table: &[u8], i: u16, head: Head, key: u64, guess: usize) -> Place
    requires { ((i + 1) * page_size ≤ length table.now) × Leads key head (read table.now i).view }
    ensures { pick key (places_below head (read table.now i).view) ≡ some result }
{
    let page = head::page_at(table, i as usize);
    let count = head.count as usize;
    let spot = seek::confirm(page, Entries::children(count), key, guess);
    head::kid(page, count, spot - 1, head.kind - 1, head.high)
}

// How many of a leaf's keys are not above this one, in a leaf that was entered.
pub fn spot_at(table: &[u8], i: u16, count: u16, key: u64, guess: usize) -> usize
    requires { ((i + 1) * page_size ≤ length table.now) × (count ≤ leaf_room)
        × (rising (keys_in leaf_header cert_size count (page_at table.now i)) ≡ true) }
    ensures { result ≡ spot_of key (keys_in leaf_header cert_size count (page_at table.now i)) }
{
    let page = head::page_at(table, i as usize);
    seek::confirm(page, Entries::certs(count as usize), key, guess)
}

// A function of its own in the object code: in line, the way that it makes would lie on an insert's stack beside the one that
// it hands back.
#[inline(never)]
pub fn way_of(t: &mut [u8], n: usize, c: u32, key: u64) -> Went
    requires { (length t.old ≡ n * page_size) × (fit0 n t.old ≡ true) }
    ensures { went t.new result
        ≡ reported (told (way_of n c key t.old)) (way_report n c key t.old nothing) }
{
    let mut way = Few::new();
    let mut report = Report::nothing();
    let mut e = head::root_place(t);
    for _ in 0..LEVELS {
        let guess = look_ahead(t, e.child, key, key);
        let above = above(way.as_slice());
        let Some(entered) = enter::enter(t, n, c, above, e) else {
            return Went { way: None, report };
        };
        let head = entered.head;
        way.push_front(Step { place: e, head });
        report = report.add(entered.reason);
        if head.kind == LEAF {
            return Went {
                way: Some(way),
                report,
            };
        }
        e = place_below(t, e.child, head, key, guess);
    }
    Went { way: None, report }
}

// The same way for those who want its leaf alone: of the pages above only the numbers are kept, since a way has 272
// bytes, and a lookup would build and pass on all of them.
pub fn leaf_of(t: &mut [u8], n: usize, c: u32, key: u64) -> Ended
    requires { (length t.old ≡ n * page_size) × (fit0 n t.old ≡ true) }
    ensures { ended t.new result
        ≡ reported (end_in key (way_of n c key t.old)) (way_report n c key t.old nothing) }
{
    let mut above = Above { parent: 0, top: 0 };
    let mut report = Report::nothing();
    let mut e = head::root_place(t);
    for level in (0..LEVELS).rev() {
        let guess = look_ahead(t, e.child, key, key);
        let Some(entered) = enter::enter(t, n, c, above, e) else {
            return Ended { end: None, report };
        };
        let page = entered.head;
        report = report.add(entered.reason);
        if page.kind == LEAF {
            let leaf = Step {
                place: e,
                head: page,
            };
            let len = LEVELS - level;
            let spot = spot_at(t, e.child, page.count, key, guess);
            return Ended {
                end: Some(End { len, leaf, spot }),
                report,
            };
        }
        let top = above.parent;
        above = Above {
            parent: e.child,
            top,
        };
        e = place_below(t, e.child, page, key, guess);
    }
    Ended { end: None, report }
}
