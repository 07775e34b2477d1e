// When a page is sound, when it fits a place, and when a lost child can be mended from it.
//
// Each function answers exactly the rules' test of the same bytes. Entries are read once, in order: keys that rise
// strictly from one that is not below low to one that is not above high lie all within, so each entry costs one
// comparison with the one before it, and high is looked at once. Two entries are tested in a round, since every page on
// every way is tested and a round has a cost of its own.
//
// Below stand `head`, which reads headers and entries, and `rules`, the definitions.

#![tactic(auto)]

ghost use Rattle.std.specs.Prelude.{◌≡◌, ℕ, ◌+◌, ◌-◌, ◌*◌, ◌≤◌, Bool, ◌&&◌, List, length, drop, nat_lt};
ghost use Rattle.rules.specs.Layout.{page_size, leaf_header, inner_header, cert_size, child_size};
ghost use Rattle.rules.specs.Key.{good_key};
ghost use Rattle.rules.specs.Page.{read_each, cert_in, child_in, page_in};
ghost use Rattle.rules.specs.Entry.{keys};
ghost use Rattle.rules.specs.Test.{mem};
ghost use Rattle.rules.specs.Table.{read};
ghost use Rattle.rules.specs.Sound.{names_pages, sound};
ghost use Rattle.rules.specs.Place.{kind_asked, unfit, fits, mendable};
ghost use Rattle.rules.specs.Report.{reason_at};
ghost use Rattle.head.specs.Head.{cert_at, child_at};
ghost use Rattle.sound.specs.Pass.{risen_on, certs_pass, children_pass, names_previous, covers};

use head::{Table, cert_key, child_key, child_number, child_previous, read_head};
use rules::{INNER_ROOM, LEAF, LEAF_ROOM, MODEL, Place, Reason, SERIAL, TOP};
use std::num::wrapping_sub_usize;

// How many serials there are.
const SERIALS: u64 = 4294967296;

// No part of the key is zero.
fn good_key(key: u64) -> bool
    ensures { result ≡ good_key key }
{
    if key < MODEL {
        return false;
    }
    if key / SERIAL % SERIALS == 0 {
        return false;
    }
    key % SERIAL != 0
}

// What the kind of a page decides of its entries: where the key of one stands, and what is asked of it beside the order.
trait Kind: Copy {
    ghost header: { ℕ };

    ghost size: { ℕ };

    ghost key_at: { List ℕ → ℕ → ℕ };

    ghost good_at: { Self → List ℕ → ℕ → Bool };

    fn key(self, page: &[u8], j: usize) -> u64
        requires { header + size * (j + 1) ≤ length page.now }
        ensures { result ≡ key_at page.now j };

    fn good(self, page: &[u8], j: usize, key: u64) -> bool
        requires { (header + size * (j + 1) ≤ length page.now) × (key ≡ key_at page.now j) }
        ensures { result ≡ good_at self page.now j };
}

// In a leaf no part of a key is zero.
#[derive(Clone, Copy)]
struct Leaf;

impl Kind for Leaf {
    ghost header = { leaf_header };

    ghost size = { cert_size };

    ghost key_at = { λ b j. (cert_at b j).key };

    ghost good_at = { λ s b j. good_key (cert_at b j).key };

    fn key(self, page: &[u8], j: usize) -> u64 {
        cert_key(page, j)
    }

    fn good(self, _page: &[u8], _j: usize, key: u64) -> bool {
        good_key(key)
    }
}

// In an inner page an entry names pages of the table, which has so many.
#[derive(Clone, Copy)]
struct Inner {
    pages: usize,
}

impl Kind for Inner {
    ghost header = { inner_header };

    ghost size = { child_size };

    ghost key_at = { λ b j. (child_at b j).key };

    ghost good_at = { λ s b j. names_pages s.pages (child_at b j) };

    fn key(self, page: &[u8], j: usize) -> u64 {
        child_key(page, j)
    }

    fn good(self, page: &[u8], j: usize, _key: u64) -> bool {
        names_pages(page, j, self.pages)
    }
}

// A child is a page other than page 0, and its previous is a page or 0. One less, page 0 is the largest number, so a
// single comparison tests both ends of the child's range: every entry of every inner page on a way comes here.
fn names_pages(page: &[u8], j: usize, n: usize) -> bool
    requires { inner_header + child_size * (j + 1) ≤ length page.now }
    ensures { result ≡ names_pages n (child_at page.now j) }
{
    let child = child_number(page, j) as usize;
    if wrapping_sub_usize(child, 1) >= wrapping_sub_usize(n, 1) {
        return false;
    }
    (child_previous(page, j) as usize) < n
}

// An entry stands behind the one before it, and is good.
fn follows<K: Kind>(kind: K, page: &[u8], j: usize, last: u64, key: u64) -> bool
    requires { (K.header + K.size * (j + 1) ≤ length page.now) × (key ≡ K.key_at page.now j) }
    ensures { result ≡ (nat_lt last key && K.good_at kind page.now j) }
{
    if key <= last {
        return false;
    }
    kind.good(page, j, key)
}

// Behind the first entry keys rise strictly up to high, and every entry is good. Two entries a round: see above.
fn rises<K: Kind>(kind: K, page: &[u8], count: usize, first: u64, high: u64) -> bool
    requires { (1 ≤ count) × (K.header + K.size * count ≤ length page.now) }
    ensures { result ≡ risen_on (K.key_at page.now) (K.good_at kind page.now) high first (count - 1) 1 }
{
    let mut last = first;
    let mut j = 1;
    while count - j > 1 {
        let key = kind.key(page, j);
        if !follows(kind, page, j, last, key) {
            return false;
        }
        last = kind.key(page, j + 1);
        if !follows(kind, page, j + 1, key, last) {
            return false;
        }
        j += 2;
    }
    if j == count {
        return last <= high;
    }
    let key = kind.key(page, j);
    if !follows(kind, page, j, last, key) {
        return false;
    }
    key <= high
}

// The leaf's keys rise strictly within low to high, and none has a part that is zero.
fn certs_pass(page: &[u8], count: usize, low: u64, high: u64) -> bool
    requires { leaf_header + cert_size * count ≤ length page.now }
    ensures { result ≡ certs_pass low high (read_each cert_in cert_size count (drop leaf_header page.now)) }
{
    if count == 0 {
        return true;
    }
    let first = cert_key(page, 0);
    if first < low {
        return false;
    }
    if !good_key(first) {
        return false;
    }
    rises(Leaf, page, count, first, high)
}

// The inner page's first key is its low, its keys rise strictly up to high, and every entry names pages.
fn children_pass(page: &[u8], count: usize, low: u64, high: u64, n: usize) -> bool
    requires { inner_header + child_size * count ≤ length page.now }
    ensures { result ≡ children_pass n low high (read_each child_in child_size count (drop inner_header page.now)) }
{
    if count == 0 {
        return false;
    }
    let first = child_key(page, 0);
    if first != low {
        return false;
    }
    if !names_pages(page, 0, n) {
        return false;
    }
    rises(Inner { pages: n }, page, count, first, high)
}

// The page is sound, whoever asks for it.
pub fn sound(page: &[u8], n: usize) -> bool
    requires { page_size ≤ length page.now }
    ensures { result ≡ sound n (page_in page.now) }
{
    let head = read_head(page);
    if head.low > head.high {
        return false;
    }
    if head.kind == LEAF {
        if head.count > LEAF_ROOM {
            return false;
        }
        return certs_pass(page, head.count as usize, head.low, head.high);
    }
    if head.kind == 0 {
        return false;
    }
    if head.kind > TOP {
        return false;
    }
    if head.count > INNER_ROOM {
        return false;
    }
    children_pass(page, head.count as usize, head.low, head.high, n)
}

// A place asks for one kind, or for any.
fn kind_asked(want: u16, kind: u16) -> bool
    ensures { result ≡ kind_asked want kind }
{
    if want == 0 {
        return true;
    }
    want == kind
}

// The first test of a place that the page fails, in the paper's order. A page that fails none is the one asked for; any
// other is lost.
pub fn unfit(page: &[u8], e: Place, n: usize) -> Option<Reason>
    requires { page_size ≤ length page.now }
    ensures { result ≡ unfit n e (page_in page.now) }
{
    let head = read_head(page);
    if !sound(page, n) {
        return Some(Reason::Soundness);
    }
    if !kind_asked(e.want, head.kind) {
        return Some(Reason::Kind);
    }
    if head.birth != e.birth {
        return Some(Reason::Birth);
    }
    if head.low != e.low {
        return Some(Reason::Range);
    }
    if head.high != e.high {
        return Some(Reason::Range);
    }
    None
}

// A number beyond the table names no page, so nothing sound is there.
pub fn unfit_at(table: Table<'_>, e: Place) -> Option<Reason>
    ensures { result ≡ reason_at table.entry.pages table.entry.bytes.now e }
{
    let child = e.child as usize;
    if child >= table.pages {
        return Some(Reason::Soundness);
    }
    unfit(table.page(child), e, table.pages)
}

// For those who do not ask why.
pub fn fits_at(table: Table<'_>, e: Place) -> bool
    ensures { result ≡ fits table.entry.pages e (read table.entry.bytes.now e.child) }
{
    unfit_at(table, e).is_none()
}

// An entry of the inner page has this key.
fn has_key(page: &[u8], count: usize, key: u64) -> bool
    requires { inner_header + child_size * count ≤ length page.now }
    ensures { result ≡ mem key (keys (read_each child_in child_size count (drop inner_header page.now))) }
{
    for j in 0..count {
        if child_key(page, j) == key {
            return true;
        }
    }
    false
}

// The place names a previous page, and it is another than the child.
fn names_previous(e: Place, n: usize) -> bool
    ensures { result ≡ names_previous n e }
{
    if e.previous == 0 {
        return false;
    }
    if e.previous as usize >= n {
        return false;
    }
    e.previous != e.child
}

// The previous page is sound, of the kind asked for, spans the range, and if inner has an entry that starts it.
fn covers(page: &[u8], e: Place, n: usize) -> bool
    requires { page_size ≤ length page.now }
    ensures { result ≡ covers n e (page_in page.now) }
{
    let head = read_head(page);
    if !kind_asked(e.want, head.kind) {
        return false;
    }
    if head.low > e.low {
        return false;
    }
    if head.high < e.high {
        return false;
    }
    if !sound(page, n) {
        return false;
    }
    if head.kind == LEAF {
        return true;
    }
    has_key(page, head.count as usize, e.low)
}

// A lost child can be mended from its previous page. If not, the place is damaged. The page is looked at only where the
// place names one.
pub fn mendable_at(table: Table<'_>, e: Place) -> bool
    ensures { result ≡ mendable table.entry.pages e (read table.entry.bytes.now e.previous) }
{
    if !names_previous(e, table.pages) {
        return false;
    }
    covers(table.page(e.previous as usize), e, table.pages)
}
