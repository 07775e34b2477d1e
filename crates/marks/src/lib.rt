// The session's marks: which pages are free or waiting, all at once. (Moves of a single page are the session's own.)
//
// `turn` is sync's, `opened` and `nobody` are the sessions that an opening hands out, `lowest` chooses the numbers of
// new pages. Each contract is one equation with the rules' Marks. What a function asks, that page numbers are marks'
// numbers, its callers have tested.
//
// Below stand `rules`, the session and its moves, and `few`, which holds the numbers chosen.

#![tactic(auto)]

ghost use Rattle.std.specs.Prelude.{◌≡◌, ◌<◌, ◌≤◌, take};
ghost use Rattle.rules.specs.Layout.{most_pages};
ghost use Rattle.rules.specs.Marks.{turned, is_page, free_pages};
ghost use Rattle.marks.specs.Opened.{opened_by};
ghost use Rattle.marks.specs.Lowest.{most_new, counts_free, free_from, first_of};

use few::Few;
use rules::{MOST, Session};

// How many new pages an insert can need: two halves at each of three levels, and a root.
pub const NEW: usize = 7;

fn is_page(n: u16, i: usize) -> bool
    ensures { result ≡ is_page n i }
{
    1 <= i && i < n as usize
}

// Sync's turn: waiting pages become free and wait no longer, and the counter grows.
pub fn turn(s: Session) -> Session
    requires { s.c < 4294967295 }
    ensures { result ≡ turned s }
{
    let mut t = s;
    for i in 0..MOST {
        let page = is_page(s.n, i);
        let waiting = t.waiting[i];
        t.free[i] = t.free[i] | (page & waiting);
        t.waiting[i] = !page & waiting;
    }
    t.raise()
}

// What a refused opening hands out. No Default: std has none for arrays of 128.
pub fn nobody() -> Session
    ensures { result ≡ Rattle.rules.specs.Marks.nobody }
{
    Session {
        n: 0,
        c: 0,
        total: 0,
        free: [false; MOST],
        waiting: [false; MOST],
    }
}

// What an opening hands out, from the number of certificates and the marks of the numbers that its tree names: as child,
// and as the previous page of a lost entry. Two arrays by page number, as the walk notes them and the session has them:
// there is no heap.
pub fn opened(n: u16, c: u32, total: u32, children: [bool; MOST], spared: [bool; MOST]) -> Session
    ensures { result ≡ opened_by n c total children spared }
{
    let mut free = [false; MOST];
    for i in 0..MOST {
        free[i] = is_page(n, i) & (!children[i] & !spared[i]);
    }
    Session {
        n,
        c,
        total,
        free,
        waiting: [false; MOST],
    }
}

// Whether a page counts as free: it is, and was not entered.
fn counts(s: &Session, entered: &[u16], i: u16) -> bool
    requires { i < most_pages }
    ensures { result ≡ counts_free s.now entered.now i }
{
    s.free[i as usize] && !entered.contains(&i)
}

// The lowest free page at or above a number.
pub fn first_free(s: &Session, entered: &[u16], from: u16) -> Option<u16>
    requires { s.now.n ≤ most_pages }
    ensures { result ≡ first_of (free_from s.now entered.now from) }
{
    for i in from..s.n {
        if counts(s, entered, i) {
            return Some(i);
        }
    }
    None
}

// The numbers for the new pages of one insert, lowest first: as many as are needed, or as are there.
pub fn lowest(s: &Session, entered: &[u16], need: usize) -> Few<u16, NEW>
    requires { (s.now.n ≤ most_pages) × (need ≤ most_new) }
    ensures { result ≡ take need (free_pages s.now entered.now) }
{
    let mut pages = Few::new();
    let mut from = 1;
    for _ in 0..need {
        let Some(i) = first_free(s, entered, from) else {
            break;
        };
        pages.push(i);
        from = i + 1;
    }
    pages
}
