// Reading a page: its header, its entries one by one, and page 0.
//
// Every function answers, or leaves, exactly what the rules read in, or write to, the same bytes. A function on a page
// takes the page's own bytes; who has a table and a number lends the page out of it, so that nobody above has to cut a
// table. Numbers and sizes are document 01's.
//
// Below stand `fields`, numbers in bytes, and `rules`, the definitions.

#![tactic(auto)]

ghost use Rattle.std.specs.Prelude.{◌≡◌, ◌+◌, ◌*◌, ◌≤◌, ◌<◌, length, drop, get_or};
ghost use Rattle.rules.specs.Layout.{page_size, common_header, leaf_header, inner_header, cert_size, child_size};
ghost use Rattle.rules.specs.Table.{page_at, fit0, number0, set_number, set_root};
ghost use Rattle.rules.specs.Page.{read_each, child_in};
ghost use Rattle.rules.specs.Place.{root_place, high_before, places_in};
ghost use Rattle.head.specs.Head.{head_in, cert_at, child_at, entry_of, zero_in, nowhere};

use fields::{get16, get32, get64, put16, put32};
use rules::{
    AT_BIRTH, AT_BUILT, AT_CHILD, AT_CHILD_BIRTH, AT_CHILD_PREVIOUS, AT_COUNT, AT_HIGH, AT_KIND,
    AT_LOW, AT_N, AT_NUMBER, AT_RECORD, AT_ROOT, AT_ROOT_BIRTH, AT_ROOT_PREVIOUS, AT_TOUCHED, CERT,
    CHILD, INNER_HEADER, LAST_KEY, LEAF_HEADER, PAGE, Place, ZERO,
};

// The header of a page.
#[derive(Clone, Copy, Default)]
pub struct Head {
    pub kind: u16,
    pub count: u16,
    pub birth: u32,
    pub built: u32,
    pub touched: u32,
    pub low: u64,
    pub high: u64,
}

// An entry of an inner page: the child's low, and what the page says of the child. As in the page, a previous of 0 is none.
#[derive(Clone, Copy)]
pub struct ChildEntry {
    pub key: u64,
    pub child: u16,
    pub previous: u16,
    pub birth: u32,
}

// The fields of page 0, as they lie there: a previous of 0 is none.
#[derive(Clone, Copy)]
pub struct Zero {
    pub kind: u16,
    pub n: u16,
    pub number: u32,
    pub root: u16,
    pub previous: u16,
    pub birth: u32,
}

// A table that is read: its bytes, and how many whole pages they are.
#[derive(Clone, Copy)]
pub struct Table<'a> {
    pub bytes: &'a [u8],
    pub pages: usize,
    ghost whole: { length bytes.now ≡ pages * page_size },
}

impl<'a> Table<'a> {
    // Page i, as it lies there.
    pub fn page(self, i: usize) -> &'a [u8]
        requires { i < self.pages }
        ensures bytes { result.now ≡ page_at self.entry.bytes.now i }
        ensures size { length result.now ≡ page_size }
    {
        page_at(self.bytes, i)
    }
}

// The same of a table that is written beside, where it is lent for one reading.
pub fn page_at(table: &[u8], i: usize) -> &[u8]
    requires { (i + 1) * page_size ≤ length table.now }
    ensures bytes { result.now ≡ page_at table.now i }
    ensures size { length result.now ≡ page_size }
{
    let from = i * PAGE;
    &table[from..from + PAGE]
}

// Each field at its offset: no derive reads bytes.
pub fn read_head(page: &[u8]) -> Head
    requires { common_header ≤ length page.now }
    ensures { result ≡ head_in page.now }
{
    Head {
        kind: get16(page, AT_KIND),
        count: get16(page, AT_COUNT),
        birth: get32(page, AT_BIRTH),
        built: get32(page, AT_BUILT),
        touched: get32(page, AT_TOUCHED),
        low: get64(page, AT_LOW),
        high: get64(page, AT_HIGH),
    }
}

// Entries are read by their index. Each function asks that this one lies in the page, and no more: a page is looked at
// before its count is tested, so there is no count yet to hold the index to.

pub fn cert_key(page: &[u8], j: usize) -> u64
    requires { leaf_header + cert_size * (j + 1) ≤ length page.now }
    ensures { result ≡ (cert_at page.now j).key }
{
    get64(page, LEAF_HEADER + CERT * j)
}

pub fn cert_record(page: &[u8], j: usize) -> u32
    requires { leaf_header + cert_size * (j + 1) ≤ length page.now }
    ensures { result ≡ (cert_at page.now j).value }
{
    get32(page, LEAF_HEADER + CERT * j + AT_RECORD)
}

pub fn child_key(page: &[u8], j: usize) -> u64
    requires { inner_header + child_size * (j + 1) ≤ length page.now }
    ensures { result ≡ (child_at page.now j).key }
{
    get64(page, INNER_HEADER + CHILD * j)
}

pub fn child_number(page: &[u8], j: usize) -> u16
    requires { inner_header + child_size * (j + 1) ≤ length page.now }
    ensures { result ≡ (child_at page.now j).value.child }
{
    get16(page, INNER_HEADER + CHILD * j + AT_CHILD)
}

pub fn child_previous(page: &[u8], j: usize) -> u16
    requires { inner_header + child_size * (j + 1) ≤ length page.now }
    ensures { result ≡ (child_at page.now j).value.previous }
{
    get16(page, INNER_HEADER + CHILD * j + AT_CHILD_PREVIOUS)
}

pub fn child_birth(page: &[u8], j: usize) -> u32
    requires { inner_header + child_size * (j + 1) ≤ length page.now }
    ensures { result ≡ (child_at page.now j).value.birth }
{
    get32(page, INNER_HEADER + CHILD * j + AT_CHILD_BIRTH)
}

pub fn child_entry(page: &[u8], j: usize) -> ChildEntry
    requires { inner_header + child_size * (j + 1) ≤ length page.now }
    ensures { result ≡ entry_of (child_at page.now j) }
{
    ChildEntry {
        key: child_key(page, j),
        child: child_number(page, j),
        previous: child_previous(page, j),
        birth: child_birth(page, j),
    }
}

// Where the range of the child at j ends: before the next entry's key, or with the page's.
fn child_high(page: &[u8], count: usize, j: usize, high: u64) -> u64
    requires { (j < count) × (inner_header + child_size * count ≤ length page.now) }
    ensures { result ≡ high_before high (drop (j + 1) (read_each child_in child_size count (drop inner_header page.now))) }
{
    let next = j + 1;
    if next >= count {
        return high;
    }
    let key = child_key(page, next);
    if key == 0 {
        return 0;
    }
    key - 1
}

// The place that entry j of an inner page asks for, if the page's range ends at high.
pub fn kid(page: &[u8], count: usize, j: usize, want: u16, high: u64) -> Place
    requires { (j < count) × (inner_header + child_size * count ≤ length page.now) }
    ensures { result ≡ get_or (places_in want high (read_each child_in child_size count (drop inner_header page.now))) j nowhere }
{
    let entry = child_entry(page, j);
    Place {
        child: entry.child,
        previous: entry.previous,
        birth: entry.birth,
        low: entry.key,
        high: child_high(page, count, j, high),
        want: want,
    }
}

// Page 0 is read and changed where it lies, at the table's start.

pub fn read_zero(table: &[u8]) -> Zero
    requires { page_size ≤ length table.now }
    ensures { result ≡ zero_in table.now }
{
    Zero {
        kind: get16(table, AT_KIND),
        n: get16(table, AT_N),
        number: get32(table, AT_NUMBER),
        root: get16(table, AT_ROOT),
        previous: get16(table, AT_ROOT_PREVIOUS),
        birth: get32(table, AT_ROOT_BIRTH),
    }
}

// What opening and every walking call ask of page 0.
pub fn fit0(table: &[u8], n: usize) -> bool
    requires { page_size ≤ length table.now }
    ensures { result ≡ fit0 n table.now }
{
    let zero = read_zero(table);
    if zero.kind != ZERO {
        return false;
    }
    if zero.n as usize != n {
        return false;
    }
    if zero.root == 0 {
        return false;
    }
    if zero.root as usize >= n {
        return false;
    }
    (zero.previous as usize) < n
}

// The place that page 0 asks for: the root, over every key.
pub fn root_place(table: &[u8]) -> Place
    requires { page_size ≤ length table.now }
    ensures { result ≡ root_place table.now }
{
    let zero = read_zero(table);
    Place {
        child: zero.root,
        previous: zero.previous,
        birth: zero.birth,
        low: 0,
        high: LAST_KEY,
        want: 0,
    }
}

pub fn number(table: &[u8]) -> u32
    requires { page_size ≤ length table.now }
    ensures { result ≡ number0 table.now }
{
    get32(table, AT_NUMBER)
}

pub fn set_number(table: &mut [u8], number: u32)
    requires { page_size ≤ length table.old }
    ensures { table.new ≡ set_number table.old number }
{
    put32(table, AT_NUMBER, number);
}

pub fn set_root(table: &mut [u8], root: u16, previous: u16, birth: u32)
    requires { page_size ≤ length table.old }
    ensures { table.new ≡ set_root table.old root previous birth }
{
    put16(table, AT_ROOT, root);
    put16(table, AT_ROOT_PREVIOUS, previous);
    put32(table, AT_ROOT_BIRTH, birth);
}
