// List: the certificates from a start key upwards, written into two lent lists up to the shorter one.
//
// `list` asks nothing and tests everything, in document 01's order: lengths, page 0, then the walk. Answer, session,
// every byte lent, both lists and the report of what was mended are those of the rules' `list`. A refused list changes
// neither list, and what was found cannot be kept elsewhere, so damage is known before the first place is written: the
// dry walk goes first. Where it is whole the lists are filled, without another test of any page if nothing is to be
// mended. Where it is not, the pages are only mended, up to the damage, since mends made before a refusal stand.
//
// `lean` is the same for callers who keep the session where it is: it takes the session's two numbers alone, and for
// every session that has them it does what `list` does.
//
// Below stand `tables`, which tests lengths, `dry`, the dry walk, and `fill`, which fills and mends.

#![tactic(auto)]

ghost use Rattle.std.specs.Prelude.{◌≡◌, true, min, ◌*◌, ◌≤◌, length};
ghost use Rattle.rules.specs.Layout.{page_size, most_pages, last_key};
ghost use Rattle.rules.specs.Table.{fit0};
ghost use Rattle.rules.specs.Walk.{walk_of};
ghost use Rattle.rules.specs.Reports.{list_reported};
ghost use Rattle.rules.specs.declared.Session.{Session};
ghost use Rattle.fill.specs.Fills.{Roomy};
ghost use Rattle.rules.specs.Handing.{beside};
ghost use Rattle.list.specs.Lists.{leaving, telling, told};

use head::Table;
use rules::{Asked, LAST_KEY, ListError, Listed, Listing, Report, Session};
use std::cmp::min;

// An answer, and what was mended on the way.
pub type Sought = rules::Sought<Listed>;

// The asked range: from the start upwards, while the shorter list has room.
fn up_from(start: u64, keys: usize, records: usize) -> Asked
    ensures { result ≡ record { low = start; high = last_key; room = min keys records } }
{
    Asked {
        low: start,
        high: LAST_KEY,
        room: min(keys, records),
    }
}

// The certificates of a range. What lies ahead is known before a byte is written.
fn look(t: &mut [u8], n: usize, c: u32, a: Asked, keys: &mut [u64], records: &mut [u32]) -> Sought
    requires { (length t.old ≡ n * page_size) × (n ≤ most_pages) × (fit0 n t.old ≡ true) × (a.low ≤ a.high) × (a.high ≤ last_key)
        × Roomy a keys.old records.old }
    ensures { telling t.new result keys.new records.new
        ≡ told keys.old records.old (walk_of n c a t.old) }
{
    let Ok(ahead) = dry::dry_of(Table { bytes: t, pages: n }, a) else {
        let report = fill::mend(t, n, c, a);
        return Sought {
            answer: Err(ListError::Damaged),
            report,
        };
    };
    if ahead.mends_nothing() {
        let known = fill::fill_known(Table { bytes: t, pages: n }, a, keys, records);
        return Sought {
            answer: Ok(known),
            report: Report::nothing(),
        };
    }
    let filled = fill::fill(t, n, c, a, keys, records);
    let report = filled.report;
    Sought {
        answer: Ok(filled.count),
        report,
    }
}

// A list by a session's numbers.
pub fn lean(
    working: &mut [u8],
    stable: &[u8],
    n: u16,
    c: u32,
    start: u64,
    keys: &mut [u64],
    records: &mut [u32],
) -> Sought
    ensures { (s : Session) → s.n ≡ n → s.c ≡ c
        → leaving (beside s result) working.new stable.now keys.new records.new
        ≡ list_reported working.old stable.now s start keys.old records.old }
{
    if !tables::lengths_for(n, working, stable) {
        return Sought {
            answer: Err(ListError::Length),
            report: Report::nothing(),
        };
    }
    let pages = n as usize;
    if !head::fit0(working, pages) {
        return Sought {
            answer: Err(ListError::Damaged),
            report: Report::nothing(),
        };
    }
    let asked = up_from(start, keys.len(), records.len());
    look(working, pages, c, asked, keys, records)
}

pub fn list(
    working: &mut [u8],
    stable: &[u8],
    session: Session,
    start: u64,
    keys: &mut [u64],
    records: &mut [u32],
) -> Listing
    ensures { leaving result working.new stable.now keys.new records.new
        ≡ list_reported working.old stable.now session start keys.old records.old }
{
    let sought = lean(working, stable, session.n, session.c, start, keys, records);
    let answer = sought.answer;
    let report = sought.report;
    Listing {
        answer,
        report,
        session,
    }
}
