// The tree as it stands, walked over a table that stays as it is.
//
// `walk` notes which numbers the tree names as child and which are previous pages of lost entries, whether no place is
// damaged and no child named twice, and how many certificates there are; `good` says whether an opening may go on. What
// is noted is the rules' tree with its lists turned into marks and a number: `note`. The page walk and the entry walk
// call each other, as document 01 says: each entry of an inner page is walked as a page one level lower. The level
// falls, and within a level the entries left.
//
// Below stand `sound`, which tests a page against a place, `head`, which reads headers and entries, and `rules`.

#![tactic(auto)]

ghost use Rattle.std.specs.Prelude.{◌≡◌, ℕ, ◌+◌, ◌-◌, ◌*◌, ◌<◌, ◌≤◌, true, false, List, length, slice_index_or, slice_set};
ghost use Rattle.rules.specs.Layout.{page_size, inner_header, child_size, inner_room};
ghost use Rattle.rules.specs.Entry.{Cert, cut};
ghost use Rattle.rules.specs.Table.{read};
ghost use Rattle.rules.specs.Tree.{tree, tree_of, tree_each};
ghost use Rattle.seen.specs.Note.{count_on, count_if, tally, seen_of, note, nothing, named, good_marks};
ghost use Rattle.seen.specs.Run.{entries_from, up_to, below, run_of, shown_of, place_in, places, rest_of, Runs, Roomy, Counts, Lies};

use head::{Table, cert_key, child_key, kid, page_at, read_head, root_place};
use rules::{LEAF, LEVELS, MOST, Place};
use sound::{fits_at, mendable_at};
use std::num::wrapping_add_u32;

// What a walk has noted so far: whether every place was whole and no child named twice, how many certificates there were,
// the numbers named as child, and the previous pages of lost entries. The rules go on noting behind damage, so the rest
// has its value whether all is whole or not, and `whole` stands beside it.
#[derive(Clone, Copy)]
pub struct Seen {
    pub whole: bool,
    pub total: u32,
    // Both by page number, of fixed size: there is no heap.
    pub children: [bool; MOST],
    pub spared: [bool; MOST],
}

// The first two of these, as they are handed on from page to page.
#[derive(Clone, Copy)]
pub struct Tally {
    pub whole: bool,
    pub total: u32,
}

// Entries of a page that are left to walk: so many from the first on, each asking for a child of one kind.
#[derive(Clone, Copy, Default)]
pub struct Run {
    pub page: usize,
    pub first: usize,
    pub left: usize,
    pub want: u16,
}

// How many entries, from an index on, have keys up to a given one.
fn up_to(page: &[u8], from: usize, count: usize, key: u64) -> usize
    requires { (from ≤ count) × (inner_header + child_size * count ≤ length page.now) }
    ensures { result ≡ up_to key (entries_from from (count - from) page.now) }
{
    for j in from..count {
        if child_key(page, j) > key {
            return j - from;
        }
    }
    count - from
}

// How many have keys below a given one.
fn below(page: &[u8], count: usize, low: u64) -> usize
    requires { inner_header + child_size * count ≤ length page.now }
    ensures { result ≡ below low (entries_from 0 count page.now) }
{
    if low == 0 {
        return 0;
    }
    up_to(page, 0, count, low - 1)
}

// The entries of a page with keys in a range; none of a leaf.
pub fn run_in(table: &[u8], page: usize, low: u64, high: u64) -> Run
    requires { Runs table.now page }
    ensures { result ≡ run_of table.now page low high }
{
    let bytes = page_at(table, page);
    let head = read_head(bytes);
    if head.kind == LEAF {
        return Run {
            page,
            ..Run::default()
        };
    }
    let count = head.count as usize;
    let first = below(bytes, count, low);
    Run {
        page,
        first,
        left: up_to(bytes, first, count, high),
        want: head.kind - 1,
    }
}

// What a place shows: entries of its child or, if that is lost, of its previous page. A damaged place shows nothing.
fn shown_at(table: Table<'_>, e: Place) -> Option<Run>
    ensures { result ≡ shown_of table.entry.pages table.entry.bytes.now e }
{
    if fits_at(table, e) {
        return Some(run_in(table.bytes, e.child as usize, e.low, e.high));
    }
    if mendable_at(table, e) {
        return Some(run_in(table.bytes, e.previous as usize, e.low, e.high));
    }
    None
}

// Whether a number is marked. One beyond the marks never is, and marking it changes nothing.
pub fn marked(marks: &[bool], i: usize) -> bool
    ensures { result ≡ slice_index_or marks.now i false }
{
    marks.get(i).copied().unwrap_or(false)
}

// By index: behind a slice's get_mut a proof knows its length and no element.
pub fn mark(marks: &mut [bool], i: usize)
    ensures { marks.new ≡ slice_set marks.old i true }
{
    if i < marks.len() {
        marks[i] = true;
    }
}

// A place is noted: its child, and the page that shows it if the child is lost. The answer is whether all is whole
// still.
fn name_place(
    whole: bool,
    child: usize,
    page: usize,
    children: &mut [bool],
    spared: &mut [bool],
) -> bool
    ensures { (total : ℕ) (certs : List Cert)
        → seen_of (tally result (count_on total certs)) children.new spared.new
        ≡ note (seen_of (tally whole total) children.old spared.old) (named child page certs) }
{
    let still = whole & !marked(children, child);
    mark(children, child);
    if page == child {
        return still;
    }
    mark(spared, page);
    still
}

// One certificate more, if its key is in a range.
fn count_key(low: u64, high: u64, key: u64, total: u32) -> u32
    ensures { result ≡ count_if low high key total }
{
    if key < low {
        return total;
    }
    if key > high {
        return total;
    }
    wrapping_add_u32(total, 1)
}

// As many more as a page has; none of an inner page.
fn count_all(table: &[u8], page: usize, total: u32) -> u32
    requires { (page + 1) * page_size ≤ length table.now }
    ensures { result ≡ count_on total (read table.now page).view.certs }
{
    let head = read_head(page_at(table, page));
    if head.kind != LEAF {
        return total;
    }
    wrapping_add_u32(total, head.count as u32)
}

// As many more as it has with keys in a range.
fn count_in(table: &[u8], page: usize, low: u64, high: u64, total: u32) -> u32
    requires { Roomy table.now page }
    ensures { result ≡ count_on total (cut low high (read table.now page).view.certs) }
{
    let bytes = page_at(table, page);
    let head = read_head(bytes);
    if head.kind != LEAF {
        return total;
    }
    let mut sum = total;
    for j in 0..head.count as usize {
        sum = count_key(low, high, cert_key(bytes, j), sum);
    }
    sum
}

// As many more as a place shows, from the page that shows it: all that its own child has, else those in its range.
fn count_at(table: &[u8], page: usize, e: Place, total: u32) -> u32
    requires { Counts table.now e page }
    ensures { result ≡ count_on total (cut e.low e.high (read table.now page).view.certs) }
{
    if page == e.child as usize {
        return count_all(table, page, total);
    }
    count_in(table, page, e.low, e.high, total)
}

// The place that a run's first entry asks for: its range ends before the next entry's key, or with the run's own.
pub fn place_in(table: &[u8], r: Run, high: u64) -> Place
    requires { ((r.page + 1) * page_size ≤ length table.now) × ((r.first + r.left ≤ inner_room) × (0 < r.left)) }
    ensures { result ≡ place_in table.now high r }
{
    let bytes = page_at(table, r.page);
    kid(bytes, r.first + r.left, r.first, r.want, high)
}

pub fn rest_of(r: Run) -> Run
    requires { (r.first < inner_room) × (0 < r.left) }
    ensures { result ≡ rest_of r }
{
    Run {
        page: r.page,
        first: r.first + 1,
        left: r.left - 1,
        want: r.want,
    }
}

// A damaged place leaves nothing whole.
fn damaged(sum: Tally) -> Tally
    ensures { result ≡ tally false sum.total }
{
    Tally {
        whole: false,
        total: sum.total,
    }
}

// The page walk: a place is noted, and what it shows is counted and walked one level lower. The table is lent: by value it
// would lie on the stack once more for each call that is open.
#[cycle(walk_entries_walk_page)]
fn walk_page(
    table: &Table<'_>,
    level: usize,
    e: Place,
    sum: Tally,
    children: &mut [bool],
    spared: &mut [bool],
) -> Tally
    ensures { seen_of result children.new spared.new ≡ note (seen_of sum children.old spared.old) (tree level table.now.pages table.now.bytes.now e) }
{
    if level == 0 {
        return damaged(sum);
    }
    let Some(r) = shown_at(*table, e) else {
        return damaged(sum);
    };
    let whole = name_place(sum.whole, e.child as usize, r.page, children, spared);
    let total = count_at(table.bytes, r.page, e, sum.total);
    walk_entries(
        table,
        level - 1,
        r,
        e.high,
        Tally { whole, total },
        children,
        spared,
    )
}

// The entry walk: the first entry's page, then the entries behind it.
#[cycle(walk_entries_walk_page)]
fn walk_entries(
    table: &Table<'_>,
    level: usize,
    r: Run,
    high: u64,
    sum: Tally,
    children: &mut [bool],
    spared: &mut [bool],
) -> Tally
    requires { Lies table.now.pages r }
    ensures { seen_of result children.new spared.new ≡ note (seen_of sum children.old spared.old) (tree_each (tree level table.now.pages table.now.bytes.now) (places table.now.bytes.now high r)) }
{
    if r.left == 0 {
        return sum;
    }
    let e = place_in(table.bytes, r, high);
    let still = walk_page(table, level, e, sum, children, spared);
    walk_entries(table, level, rest_of(r), high, still, children, spared)
}

// The whole tree, from the root on.
pub fn walk(table: Table<'_>) -> Seen
    requires { 0 < table.pages }
    ensures { result ≡ note nothing (tree_of table.entry.pages table.entry.bytes.now) }
{
    let root = root_place(table.bytes);
    let mut children = [false; MOST];
    let mut spared = [false; MOST];
    let none = Tally {
        whole: true,
        total: 0,
    };
    let sum = walk_page(&table, LEVELS, root, none, &mut children, &mut spared);
    Seen {
        whole: sum.whole,
        total: sum.total,
        children,
        spared,
    }
}

// What opening asks of the tree: it is whole, and no child is the previous page of a lost entry.
pub fn good(s: Seen) -> bool
    ensures { result ≡ good_marks s }
{
    for (child, spared) in s.children.iter().zip(&s.spared) {
        if *child & *spared {
            return false;
        }
    }
    s.whole
}
