// Pages that a call builds: the page that mending makes, the halves of a split page and a new root.
//
// Each is built where it is to stand, in the lent table: first the entries, straight from the page they are on, then
// zeros behind the last one, then the header. No other page changes. A half and a mended page are the same thing: a range
// of another page's entries under a new header.
//
// Below stand `fields`, numbers in bytes; `head`, which lends a page; `entries`, entries as runs of bytes; and `rules`,
// whose `build` every contract of a function here that others call and that writes is an equation with.

#![tactic(auto)]

ghost use Rattle.std.specs.Prelude.{◌≡◌, ◌+◌, ◌*◌, ◌≤◌, ◌<◌, length};
ghost use Rattle.std.proofs.lemmas.List.Edits.{sets};
ghost use Rattle.rules.specs.Layout.{page_size, common_header, leaf_kind, last_key};
ghost use Rattle.rules.specs.Page.{count, view_in, fresh};
ghost use Rattle.rules.specs.Table.{read, build};
ghost use Rattle.rules.specs.Place.{mended};
ghost use Rattle.rules.specs.Insert.{divide, new_child, lower_page, upper_page};
ghost use Rattle.entries.specs.Spot.{spot_of, start_of};
ghost use Rattle.build.specs.Range.{header_of, keys_of, range_view, root_view, half_of, Roomy, Ordered, Divides};

use entries::Entries;
use head::ChildEntry;
use rules::{
    AT_BIRTH, AT_BUILT, AT_COUNT, AT_HIGH, AT_KIND, AT_LOW, AT_TOUCHED, CHILD, INNER_HALF,
    INNER_HEADER, LAST_KEY, LEAF, LEAF_HALF, PAGE, Place,
};

// What the header of a page that is built says besides kind and count: its birth, when it is built, and its range.
#[derive(Clone, Copy)]
struct Fresh {
    birth: u32,
    c: u32,
    low: u64,
    high: u64,
}

// Which entries of a page are meant: from the first of them up to the first one past them; none where `past` is below.
#[derive(Clone, Copy)]
struct Run {
    first: usize,
    past: usize,
}

// The header of a page that is built now.
fn header(table: &mut [u8], at: usize, kind: u16, count: u16, fresh: Fresh)
    requires { at + common_header ≤ length table.old }
    ensures { table.new ≡ sets table.old at (header_of kind count fresh.birth fresh.c fresh.low fresh.high) }
{
    fields::put16(table, at + AT_KIND, kind);
    fields::put16(table, at + AT_COUNT, count);
    fields::put32(table, at + AT_BIRTH, fresh.birth);
    fields::put32(table, at + AT_BUILT, fresh.c);
    fields::put32(table, at + AT_TOUCHED, fresh.c);
    fields::put64(table, at + AT_LOW, fresh.low);
    fields::put64(table, at + AT_HIGH, fresh.high);
}

// A page becomes the one with a range of another page's entries. All that is read of that page is read before the
// header is written, so it may be the same page.
fn build_range(table: &mut [u8], to: usize, from: usize, run: Run, page: Fresh)
    requires page_size_in_bounds { ((to + 1) * page_size ≤ length table.old) × ((from + 1) * page_size ≤ length table.old) }
    requires roomy { Roomy (read table.old from).view }
    requires first_bound { (run.first ≤ count (read table.old from).view) × (run.past ≤ count (read table.old from).view) }
    ensures { table.new
        ≡ build table.old to (fresh page.c page.birth page.low page.high (range_view run.first run.past (read table.old from).view)) }
{
    let kind = fields::get16(table, from * PAGE + AT_KIND);
    let many = run.past.saturating_sub(run.first);
    let entries = Entries::of_kind(kind, many);
    let at = to * PAGE;
    let source = from * PAGE + entries.at(run.first);
    entries::copy(table, at + entries.header, source, entries.size * many);
    entries::clear(table, at + entries.at(many), at + PAGE);
    header(table, at, kind, many as u16, page);
}

// Which entries of a page have keys in a range.
fn run_in(page: &[u8], low: u64, high: u64) -> Run
    requires page_len { length page.now ≡ page_size }
    requires roomy { Roomy (view_in page.now) }
    ensures { (result.first ≡ start_of low (keys_of page.now)) × (result.past ≡ spot_of high (keys_of page.now)) }
{
    let entries = Entries::of(page);
    Run {
        first: entries.start(page, low),
        past: entries.spot(page, high),
    }
}

// How many entries of a full page of this kind its lower half takes. By the kind's number, as the rules have it.
fn half_of(kind: u16) -> usize
    ensures { result ≡ half_of kind }
{
    if kind == LEAF { LEAF_HALF } else { INNER_HALF }
}

// The child at a place becomes the entries of its previous page with keys in the place's range.
pub fn build_mended(table: &mut [u8], e: Place, c: u32)
    requires page_size_in_bounds { ((e.child + 1) * page_size ≤ length table.old) × ((e.previous + 1) * page_size ≤ length table.old) }
    requires ordered { Ordered (read table.old e.previous).view }
    ensures { table.new ≡ build table.old e.child (mended c e (read table.old e.previous)) }
{
    let run = run_in(head::page_at(table, e.previous as usize), e.low, e.high);
    let page = Fresh {
        birth: e.birth,
        c,
        low: e.low,
        high: e.high,
    };
    build_range(table, e.child as usize, e.previous as usize, run, page);
}

// The upper half's low, of a page that is to be split: the first key that the lower half does not take.
pub fn middle_at(table: &[u8], i: usize) -> u64
    requires page_size_in_bounds { (i + 1) * page_size ≤ length table.now }
    requires divides { Divides (read table.now i).view }
    ensures { result ≡ divide (read table.now i).view }
{
    let page = head::page_at(table, i);
    let half = half_of(fields::get16(page, AT_KIND));
    Entries::of(page).key(page, half)
}

// A page becomes the lower half of another.
pub fn build_lower(table: &mut [u8], to: usize, from: usize, c: u32)
    requires page_size_in_bounds { ((to + 1) * page_size ≤ length table.old) × ((from + 1) * page_size ≤ length table.old) }
    requires divides { Divides (read table.old from).view }
    ensures { table.new ≡ build table.old to (lower_page c (read table.old from)) }
{
    let head = head::read_head(head::page_at(table, from));
    let high = middle_at(table, from) - 1;
    let run = Run {
        first: 0,
        past: half_of(head.kind),
    };
    let page = Fresh {
        birth: c,
        c,
        low: head.low,
        high,
    };
    build_range(table, to, from, run, page);
}

// A page becomes the upper half of another.
pub fn build_upper(table: &mut [u8], to: usize, from: usize, c: u32)
    requires page_size_in_bounds { ((to + 1) * page_size ≤ length table.old) × ((from + 1) * page_size ≤ length table.old) }
    requires divides { Divides (read table.old from).view }
    ensures { table.new ≡ build table.old to (upper_page c (read table.old from)) }
{
    let head = head::read_head(head::page_at(table, from));
    let low = middle_at(table, from);
    let run = Run {
        first: half_of(head.kind),
        past: head.count as usize,
    };
    let page = Fresh {
        birth: c,
        c,
        low,
        high: head.high,
    };
    build_range(table, to, from, run, page);
}

// A page becomes a new root over the old one, whose place gives its entry.
pub fn build_root(table: &mut [u8], to: usize, c: u32, kind: u16, old: Place)
    requires page_size_in_bounds { (to + 1) * page_size ≤ length table.old }
    requires leaf_kind_lt_kind { leaf_kind < kind }
    ensures { table.new ≡ build table.old to
        (fresh c c 0 last_key (root_view kind (new_child old.birth old.low old.child old.previous))) }
{
    let at = to * PAGE;
    let entry = ChildEntry {
        key: old.low,
        child: old.child,
        previous: old.previous,
        birth: old.birth,
    };
    entries::write_child(table, at + INNER_HEADER, entry);
    entries::clear(table, at + INNER_HEADER + CHILD, at + PAGE);
    let page = Fresh {
        birth: c,
        c,
        low: 0,
        high: LAST_KEY,
    };
    header(table, at, kind, 1, page);
}
