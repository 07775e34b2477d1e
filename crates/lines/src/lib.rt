// The lines of the bench program: a reader that finds out what a line asks for.
//
// A line is read byte by byte and may be of any length: the reader keeps the numbers read so far and the place where
// it is, nothing else. specs/Line.antt says what document 01 reads in a line, specs/Reader.antt what a byte makes of
// a reader, and each contract is one equation with the latter. That both say the same of every line is the theorem
// `reader_reads` of proofs/Reading.antt.
//
// Nothing stands below.

#![tactic(auto)]

ghost use Rattle.std.specs.Prelude.{◌≡◌, ◌≢◌, ◌≤◌, ℕ, MatchOption, set, true, false};
ghost use Rattle.lines.specs.Line.{space};
ghost use Rattle.lines.specs.Reader.{grown_of, after_issue, letter_fed, space_fed, start_of, fed_of, line_in};

const SPACE: u8 = b' ';

// The limits of a line's numbers: a model or an issue has 16 bits, a serial or a record 32, and the bench's store has
// pages 0 to 4.
const MOST_16: u32 = u16::MAX as u32;

const MOST_32: u32 = u32::MAX;

const LAST_PAGE: u32 = 4;

// A line asks for an insert, a find, a sync, or a crash with some of the five pages written; one of any other shape
// asks for nothing, and has an answer of its own.
#[derive(Clone, Copy)]
pub enum Line {
    Insert(u16, u32, u16, u32),
    Find(u16, u32, u16),
    Sync,
    Crash([bool; 5]),
    Other,
}

// What a certificate's numbers are for.
#[derive(Clone, Copy)]
pub enum Ask {
    Insert,
    Find,
}

// Where a reader is. `Certificate` stands behind the letter of an insert or a find; the four numbers follow, each with
// those before it, whether it has begun, and its value so far. `Other` is behind a line of any other shape. No `Option`:
// a number that a caller hands in may have a value and yet not have begun, and a digit makes it grow from there.
#[derive(Clone, Copy)]
pub enum Reader {
    Start,
    Certificate(Ask),
    Model(Ask, bool, u16),
    Serial(Ask, u16, bool, u32),
    Issue(Ask, u16, u32, bool, u16),
    Record(u16, u32, u16, bool, u32),
    Sync,
    Crash,
    Page([bool; 5], bool, u8),
    Other,
}

// A number with a digit more, if the byte is a digit and the number stays within its limit.
fn grow(limit: u32, v: u32, b: u8) -> Option<u32>
    ensures { result ≡ grown_of limit v b }
{
    if !b.is_ascii_digit() {
        return None;
    }
    let n = u64::from(v) * 10 + u64::from(b - b'0');
    if n <= u64::from(limit) {
        return Some(n as u32);
    }
    None
}

// A byte within a number: a space ends it, if it has begun, and a digit makes it grow.
fn feed_number<G: FnOnce(u32) -> Reader, E: FnOnce(u32) -> Reader>(
    limit: u32,
    begun: bool,
    v: u32,
    b: u8,
    grown: G,
    ended: E,
) -> Reader
    requires grows { (n : ℕ) → n ≤ limit → G.pre grown n }
    requires ends { begun ≡ true → E.pre ended v }
    ensures at_space { b ≡ space → begun ≡ true → E.post ended v result }
    ensures too_soon { b ≡ space → begun ≡ false → result ≡ Reader.Other }
    ensures within { b ≢ space
        → MatchOption (grown_of limit v b) (result ≡ Reader.Other) (λ n. G.post grown n result) }
{
    if b != SPACE {
        return grow(limit, v, b).map_or(Reader::Other, grown);
    }
    if begun {
        return ended(v);
    }
    Reader::Other
}

fn feed_letter(b: u8) -> Reader
    ensures { result ≡ letter_fed b }
{
    match b {
        b'i' => Reader::Certificate(Ask::Insert),
        b'f' => Reader::Certificate(Ask::Find),
        b's' => Reader::Sync,
        b'c' => Reader::Crash,
        _ => Reader::Other,
    }
}

fn feed_space(next: Reader, b: u8) -> Reader
    ensures { result ≡ space_fed next b }
{
    if b == SPACE {
        return next;
    }
    Reader::Other
}

// A find has no record.
fn after_issue(ask: Ask, model: u16, serial: u32, issue: u16) -> Reader
    ensures { result ≡ after_issue ask model serial issue }
{
    match ask {
        Ask::Insert => Reader::Record(model, serial, issue, false, 0),
        Ask::Find => Reader::Other,
    }
}

// The pages with one more.
fn with_page(mut pages: [bool; 5], page: u8) -> [bool; 5]
    ensures { result ≡ set pages page true }
{
    let i = usize::from(page);
    if i < pages.len() {
        pages[i] = true;
    }
    pages
}

fn feed_page(pages: [bool; 5], begun: bool, v: u8, b: u8) -> Reader
    ensures { result ≡ fed_of (Reader.Page pages begun v) b }
{
    feed_number(
        LAST_PAGE,
        begun,
        u32::from(v),
        b,
        |n| Reader::Page(pages, true, n as u8),
        |page| Reader::Page(with_page(pages, page as u8), false, 0),
    )
}

impl Reader {
    pub fn new() -> Self
        ensures { result ≡ start_of }
    {
        Reader::Start
    }

    pub fn feed(self, b: u8) -> Self
        ensures { result ≡ fed_of self b }
    {
        match self {
            Reader::Start => feed_letter(b),
            Reader::Certificate(ask) => feed_space(Reader::Model(ask, false, 0), b),
            Reader::Model(ask, begun, v) => feed_number(
                MOST_16,
                begun,
                u32::from(v),
                b,
                |n| Reader::Model(ask, true, n as u16),
                |m| Reader::Serial(ask, m as u16, false, 0),
            ),
            Reader::Serial(ask, m, begun, v) => feed_number(
                MOST_32,
                begun,
                v,
                b,
                |n| Reader::Serial(ask, m, true, n),
                |s| Reader::Issue(ask, m, s, false, 0),
            ),
            Reader::Issue(ask, m, s, begun, v) => feed_number(
                MOST_16,
                begun,
                u32::from(v),
                b,
                |n| Reader::Issue(ask, m, s, true, n as u16),
                |i| after_issue(ask, m, s, i as u16),
            ),
            Reader::Record(m, s, i, begun, v) => feed_number(
                MOST_32,
                begun,
                v,
                b,
                |n| Reader::Record(m, s, i, true, n),
                |_| Reader::Other,
            ),
            Reader::Crash => feed_space(Reader::Page([false; 5], false, 0), b),
            Reader::Page(pages, begun, v) => feed_page(pages, begun, v, b),
            Reader::Sync | Reader::Other => Reader::Other,
        }
    }

    pub fn line(self) -> Line
        ensures { result ≡ line_in self }
    {
        match self {
            Reader::Issue(Ask::Find, m, s, true, i) => Line::Find(m, s, i),
            Reader::Record(m, s, i, true, r) => Line::Insert(m, s, i, r),
            Reader::Sync => Line::Sync,
            Reader::Crash => Line::Crash([false; 5]),
            Reader::Page(pages, true, page) => Line::Crash(with_page(pages, page)),
            _ => Line::Other,
        }
    }
}
