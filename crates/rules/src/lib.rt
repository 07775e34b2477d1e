// The rules of the store: document 01 as definitions, and the types they speak of.
//
// specs/ is what a reader has to believe. It says in short definitions that compute what every page byte means,
// when a page is sound, what mending makes, which pages a call enters, and what each of the calls answers and
// leaves. proofs/ holds laws about those definitions, the bench cases and the theorem about crashes.
// This file declares the numbers of document 01, a place, what a walk is asked for, the session with its moves, and what
// each call answers.
//
// Below stands `fields`: numbers in bytes.

#![tactic(auto)]

ghost use Rattle.std.specs.Prelude.{◌≡◌, ◌<◌};
ghost use Rattle.rules.specs.Report.{nothing, adds};
ghost use Rattle.rules.specs.Batch.{joins};
ghost use Rattle.rules.specs.Marks.{taken, freed, waits, raised, counted, uncounted};

use std::num::wrapping_add_u32;

// The numbers of document 01 that code needs, named here once. specs/ has them too, for the rules: sizes in Layout, where
// fields stand in Page and Table. A number that differs from its twin there breaks the proof of whoever uses it.

// A page, the header of a leaf and of an inner page, and an entry of each, in bytes.
pub const PAGE: usize = 512;

pub const LEAF_HEADER: usize = 32;

pub const INNER_HEADER: usize = 32;

pub const CERT: usize = 12;

pub const CHILD: usize = 16;

// Where a header's fields start: kind (2 bytes), count (2), birth (4), built (4), touched (4), low (8), high (8).
pub const AT_KIND: usize = 0;

pub const AT_COUNT: usize = 2;

pub const AT_BIRTH: usize = 4;

pub const AT_BUILT: usize = 8;

pub const AT_TOUCHED: usize = 12;

pub const AT_LOW: usize = 16;

pub const AT_HIGH: usize = 24;

// Where those of page 0 start, behind its kind: n (2), number (4), root (2), the root's previous (2) and birth (4).
pub const AT_N: usize = 2;

pub const AT_NUMBER: usize = 4;

pub const AT_ROOT: usize = 8;

pub const AT_ROOT_PREVIOUS: usize = 10;

pub const AT_ROOT_BIRTH: usize = 12;

// Where those of an entry start, behind its key (8): a record (4); or a child (2), its previous (2) and birth (4).
pub const AT_RECORD: usize = 8;

pub const AT_CHILD: usize = 8;

pub const AT_CHILD_PREVIOUS: usize = 10;

pub const AT_CHILD_BIRTH: usize = 12;

// The kinds: a leaf, the highest inner page, page 0. The root is walked at the level of the highest kind.
pub const LEAF: u16 = 1;

pub const TOP: u16 = 3;

pub const ZERO: u16 = 9;

pub const LEVELS: usize = 3;

// How many entries a leaf and an inner page hold, and how many of them a lower half takes; an upper half takes all
// others.
pub const LEAF_ROOM: u16 = 40;

pub const INNER_ROOM: u16 = 30;

pub const LEAF_HALF: usize = 20;

pub const INNER_HALF: usize = 15;

// How many pages a table has, at the least and at the most.
pub const FEWEST: usize = 4;

pub const MOST: usize = 128;

// What a key counts model and serial by, and the largest key.
pub const MODEL: u64 = 281474976710656;

pub const SERIAL: u64 = 65536;

pub const LAST_KEY: u64 = 18446744073709551615;

// The largest issue of a certificate that is not provisional, and the largest of all.
pub const LAST_FINAL: u16 = 32767;

pub const LARGEST_ISSUE: u16 = 65535;

// The largest number that opens, and the largest counter that syncs.
pub const LAST_NUMBER: u32 = 4294967293;

// A place: what a parent's entry asks of its child. want is the kind asked for; 0 asks for any, as page 0 does of the
// root. A kind is a number, as in a page's header: any two bytes may stand there until the page is tested.
#[derive(Clone, Copy, Default)]
pub struct Place {
    pub child: u16,
    pub previous: u16,
    pub birth: u32,
    pub low: u64,
    pub high: u64,
    pub want: u16,
}

// What a walk is asked for: a range of keys, and how many certificates there is room for.
#[derive(Clone, Copy)]
pub struct Asked {
    pub low: u64,
    pub high: u64,
    pub room: usize,
}

// Why a page is lost: the first test that it fails, in this order.
#[derive(Clone, Copy, PartialEq, Eq, Debug)]
pub enum Reason {
    Soundness,
    Kind,
    Birth,
    Range,
}

// What a call that walks reports: how many pages it mended, and the reason for the first.
#[derive(Clone, Copy, PartialEq, Eq, Debug)]
pub struct Report {
    pub mended: u32,
    pub reason: Option<Reason>,
}

impl Report {
    // Its own word and no Default: contracts and theorems speak of it.
    pub fn nothing() -> Self
        ensures { result ≡ nothing }
    {
        Report {
            mended: 0,
            reason: None,
        }
    }

    // A page was entered that is lost for this reason, or that fits.
    pub fn add(self, reason: Option<Reason>) -> Self
        ensures { result ≡ adds reason self }
    {
        if reason.is_none() {
            return self;
        }
        Report {
            mended: wrapping_add_u32(self.mended, 1),
            reason: self.reason.or(reason),
        }
    }

    // Another call's report follows this one.
    pub fn join(self, next: Report) -> Self
        ensures { result ≡ joins self next }
    {
        Report {
            mended: wrapping_add_u32(self.mended, next.mended),
            reason: self.reason.or(next.reason),
        }
    }
}

// What is handed in and handed back with each call: the number of pages, the counter, the number of certificates, and for
// each page whether it is free and whether it is waiting. It is laid out as C lays it out, for callers in C.
#[repr(C)]
#[derive(Clone, Copy)]
pub struct Session {
    pub n: u16,
    pub c: u32,
    pub total: u32,
    pub free: [bool; MOST],
    pub waiting: [bool; MOST],
}

impl Session {
    // A page is taken: it is free no longer.
    pub fn take(mut self, page: usize) -> Self
        requires { page < 128 }
        ensures { result ≡ taken page self }
    {
        self.free[page] = false;
        self
    }

    // A page is free again at once.
    pub fn release(mut self, page: usize) -> Self
        requires { page < 128 }
        ensures { result ≡ freed page self }
    {
        self.free[page] = true;
        self
    }

    // A page waits for the next sync.
    pub fn wait(mut self, page: usize) -> Self
        requires { page < 128 }
        ensures { result ≡ waits page self }
    {
        self.waiting[page] = true;
        self
    }

    // The counter grows by one.
    pub fn raise(mut self) -> Self
        requires { self.c < 4294967295 }
        ensures { result ≡ raised self }
    {
        self.c = self.c + 1;
        self
    }

    // There is one certificate more. The total wraps, since a session handed in may hold any.
    pub fn count(mut self) -> Self
        ensures { result ≡ counted self }
    {
        self.total = wrapping_add_u32(self.total, 1);
        self
    }

    // There is one less: 4,294,967,295 more, since the total wraps.
    pub fn uncount(mut self) -> Self
        ensures { result ≡ uncounted self }
    {
        self.total = wrapping_add_u32(self.total, 4294967295);
        self
    }
}

// An item of a batch: a certificate to be inserted, and a place for its answer's number. It is laid out as C lays it out.
#[repr(C)]
#[derive(Clone, Copy)]
pub struct Item {
    pub model: u16,
    pub serial: u32,
    pub issue: u16,
    pub value: u32,
    pub answer: u32,
}

// What each call answers: the numbers of a call that is done, or why it is refused. Each call has the error enum that
// names its refusals and no others, so that a type says which answers a call can give.

// Format and a batch refuse nothing but lengths.
#[derive(Clone, Copy, PartialEq, Eq, Debug)]
pub enum LengthError {
    Length,
}

pub type Formatted = Result<(), LengthError>;

pub type Batched = Result<(), LengthError>;

#[derive(Clone, Copy, PartialEq, Eq, Debug)]
pub enum OpenError {
    Length,
    Damaged,
    Spent,
}

pub type Opened = Result<(), OpenError>;

#[derive(Clone, Copy, PartialEq, Eq, Debug)]
pub enum InsertError {
    Length,
    BadKey,
    Damaged,
    Present,
    SyncFirst,
    Full,
}

pub type Inserted = Result<(), InsertError>;

// Lookup, newest and withdraw refuse alike: each must find a certificate.
#[derive(Clone, Copy, PartialEq, Eq, Debug)]
pub enum FindError {
    Length,
    BadKey,
    Damaged,
    Missing,
}

pub type Withdrawn = Result<(), FindError>;

// The record found.
pub type Looked = Result<u32, FindError>;

// The largest issue of a meter, with its record.
#[derive(Clone, Copy, PartialEq, Eq, Debug)]
pub struct Latest {
    pub issue: u16,
    pub value: u32,
}

pub type Newest = Result<Latest, FindError>;

#[derive(Clone, Copy, PartialEq, Eq, Debug)]
pub enum AnyError {
    Length,
    BadKey,
    Damaged,
}

// Whether a meter has a certificate: yes and no are both done.
pub type Any = Result<bool, AnyError>;

#[derive(Clone, Copy, PartialEq, Eq, Debug)]
pub enum ListError {
    Length,
    Damaged,
}

// How many places of the lists were filled.
pub type Listed = Result<usize, ListError>;

#[derive(Clone, Copy, PartialEq, Eq, Debug)]
pub enum SyncError {
    Length,
    Spent,
}

pub type Synced = Result<(), SyncError>;

// What a call hands back: its answer and the session, and a call that walks its report.

#[derive(Clone, Copy)]
pub struct Handed<A> {
    pub answer: A,
    pub session: Session,
}

#[derive(Clone, Copy)]
pub struct Reporting<A> {
    pub answer: A,
    pub report: Report,
    pub session: Session,
}

// What a call that walks comes to, before the session is handed back beside it.
#[derive(Clone, Copy)]
pub struct Sought<A> {
    pub answer: A,
    pub report: Report,
}

pub type Opening = Handed<Opened>;

pub type Syncing = Handed<Synced>;

pub type Inserting = Reporting<Inserted>;

pub type Withdrawing = Reporting<Withdrawn>;

pub type Batching = Reporting<Batched>;

pub type Looking = Reporting<Looked>;

pub type NewestOf = Reporting<Newest>;

pub type AnyOf = Reporting<Any>;

pub type Listing = Reporting<Listed>;
