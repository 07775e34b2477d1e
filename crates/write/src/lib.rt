// The exchange file of a store, written into a lent output (K4).
//
// `write_file` asks nothing and tests everything, in the order of the answers: lengths, page 0, the walk, then the
// output's length. Answer, session, every byte lent and the report of what was mended are those of specs/'s
// `write_file`: the file of what a listing from key 0 with room for all finds, with the tables as that listing leaves
// them. A refused call leaves the output as it is, and each section stands behind its count: so the dry walk counts
// models, meters and certificates first, and one walk then fills the three sections. Where the output is not touched
// the pages are only mended.
//
// `lean` is the same for callers who keep the session where it is: it takes the session's two numbers alone, and for
// every session that has them it does what `write_file` does.
//
// Below stand `tables`, which tests lengths, `counts`, which counts, `sections`, which writes a leaf's certificates,
// `fill`, whose walk only mends, `leaves`, which steps from leaf to leaf, and `exchange`, the form of the file.

#![tactic(auto)]

ghost use Rattle.std.specs.Prelude.{◌≡◌, true, ◌*◌, ◌≤◌, length};
ghost use Rattle.rules.specs.Layout.{page_size, most_pages, last_key};
ghost use Rattle.rules.specs.Table.{fit0};
ghost use Rattle.rules.specs.Walk.{walk_of};
ghost use Rattle.rules.specs.declared.Session.{Session};
ghost use Rattle.fill.specs.Fills.{HasRoom};
ghost use Rattle.counts.specs.Tally.{everything, no_tally, counted_all};
ghost use Rattle.write.specs.WriteFile.{write_reported, write_error_no, written_length};
ghost use Rattle.sections.specs.Puts.{Lies};
ghost use Rattle.rules.specs.Handing.{beside};
ghost use Rattle.write.specs.Calls.{leaving, telling, told, wrote, wrote_in};

use counts::{Tally, everything};
use dry::KeyRange;
use head::{Table, page_at};
use leaves::Leaves;
use numbers::Refusal;
use rules::{Asked, Report, Session};
use sections::{Starts, put_counts, put_leaf, starts_of};

// Why a file isn't written.
#[derive(Clone, Copy, PartialEq, Eq, Debug)]
pub enum WriteError {
    Length,
    Damaged,
    Short,
}

impl Refusal for WriteError {
    ghost number_of = { write_error_no };

    #[tactic(auto, unfolding(crate::specs::WriteFile::write_error_no))]
    fn number(self) -> u32 {
        match self {
            WriteError::Length => 1,
            WriteError::Damaged => 3,
            WriteError::Short => 9,
        }
    }
}

// The file's length, or why there is none.
pub type Written = Result<usize, WriteError>;

// What the call hands back.
pub type Writing = rules::Reporting<Written>;

// An answer, and what was mended on the way.
pub type Sought = rules::Sought<Written>;

// The file's length, 0 beside a refusal.
#[tactic(auto, unfolding(crate::specs::WriteFile::written_length))]
pub fn length_of(w: Written) -> u64
    ensures { result ≡ written_length w }
{
    w.unwrap_or(0) as u64
}

// The walk that writes, mending on the way, where no damaged place lies ahead and the counts are known.
fn fill(t: &mut [u8], n: usize, c: u32, a: Asked, s: Starts, out: &mut [u8]) -> Report
    requires { (length t.old ≡ n * page_size) × (fit0 n t.old ≡ true) × (a.low ≤ a.high) × (a.high ≤ last_key)
        × ((walk_of n c a t.old).whole ≡ true) × HasRoom a (walk_of n c a t.old)
        × Lies s (counted_all no_tally (walk_of n c a t.old).found) (length out.old) }
    ensures { wrote t.new out.new result ≡ wrote_in s out.old (walk_of n c a t.old) }
{
    let mut walk = Leaves::over(a.low, a.high);
    let mut tally = Tally::default();
    while let Some(step) = walk.next(t, n, c) {
        let Ok(leaf) = step else {
            return walk.report;
        };
        let page = page_at(t, leaf.child as usize);
        let range = KeyRange {
            low: leaf.from,
            high: a.high,
        };
        tally = put_leaf(page, leaf.count as usize, range, s, tally, out);
    }
    walk.report
}

// What lies ahead is known before a byte is written.
fn look(t: &mut [u8], n: usize, c: u32, out: &mut [u8]) -> Sought
    requires { (length t.old ≡ n * page_size) × (n ≤ most_pages) × (fit0 n t.old ≡ true) }
    ensures { telling result t.new out.new ≡ told out.old (walk_of n c everything t.old) }
{
    let Ok(tally) = counts::count_of(Table { bytes: t, pages: n }) else {
        let report = fill::mend(t, n, c, everything());
        return Sought {
            answer: Err(WriteError::Damaged),
            report,
        };
    };
    let starts = starts_of(tally);
    if starts.end > out.len() {
        let report = fill::mend(t, n, c, everything());
        return Sought {
            answer: Err(WriteError::Short),
            report,
        };
    }
    put_counts(out, starts, tally);
    let report = fill(t, n, c, everything(), starts, out);
    Sought {
        answer: Ok(starts.end),
        report,
    }
}

// The file by a session's numbers.
pub fn lean(working: &mut [u8], stable: &[u8], n: u16, c: u32, out: &mut [u8]) -> Sought
    ensures { (s : Session) → s.n ≡ n → s.c ≡ c
        → leaving (beside s result) working.new stable.now out.new
        ≡ write_reported working.old stable.now s out.old }
{
    if !tables::lengths_for(n, working, stable) {
        return Sought {
            answer: Err(WriteError::Length),
            report: Report::nothing(),
        };
    }
    let pages = n as usize;
    if !head::fit0(working, pages) {
        return Sought {
            answer: Err(WriteError::Damaged),
            report: Report::nothing(),
        };
    }
    look(working, pages, c, out)
}

pub fn write_file(working: &mut [u8], stable: &[u8], session: Session, out: &mut [u8]) -> Writing
    ensures { leaving result working.new stable.now out.new
        ≡ write_reported working.old stable.now session out.old }
{
    let sought = lean(working, stable, session.n, session.c, out);
    Writing {
        answer: sought.answer,
        report: sought.report,
        session,
    }
}
