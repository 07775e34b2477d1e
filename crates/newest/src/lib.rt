// Newest: the largest issue of a meter that is not provisional, and its record.
//
// `newest` asks nothing and tests everything, in document 01's order: lengths, model and serial, page 0, then every
// leaf that can hold a certificate of the meter. Answer, report, session and every byte lent are those of the rules'
// `newest_reported`; what was mended on the way stays mended and is reported, also behind a refusal. A damaged page is
// never passed over: the newest certificate might stand there.
//
// `lean` is the same for callers who keep the session where it is: it takes the session's two numbers alone, and for
// every session that has them it does what `newest` does.
//
// Of each leaf one certificate is looked at, the last that is not above the meter's keys. The others are read in the test
// of the page alone.
//
// Below stand `tables`, which tests lengths, `keys`, and `leaves`, which steps from leaf to leaf.

#![tactic(auto)]

ghost use Rattle.std.specs.Prelude.{◌≡◌, true, ◌+◌, ◌*◌, ◌≤◌, ◌<◌, length};
ghost use Rattle.rules.specs.Layout.{page_size, leaf_header, cert_size, last_key};
ghost use Rattle.rules.specs.Table.{fit0};
ghost use Rattle.rules.specs.Walk.{walk_of};
ghost use Rattle.rules.specs.Reports.{newest_reported};
ghost use Rattle.rules.specs.declared.Session.{Session};
ghost use Rattle.rules.specs.Handing.{beside, leaving};
ghost use Rattle.newest.specs.Newests.{range, last_in, seeing, seen};

use leaves::Leaves;
use rules::{FindError, LAST_FINAL, Latest, Newest, NewestOf, Report, Session};

// How many issues a meter has, counting 0.
const ISSUES: u64 = 65536;

// The last certificate before a spot of a leaf, if it is not below the range; else what was found before.
fn last_in(page: &[u8], spot: usize, low: u64, newest: Newest) -> Newest
    requires { leaf_header + cert_size * spot ≤ length page.now }
    ensures { result ≡ last_in low spot page.now newest }
{
    if spot == 0 {
        return newest;
    }
    let key = head::cert_key(page, spot - 1);
    if key < low {
        return newest;
    }
    let record = head::cert_record(page, spot - 1);
    Ok(Latest {
        issue: (key % ISSUES) as u16,
        value: record,
    })
}

// What a walk over a range comes to: the answer, and what was mended.
pub type Sought = rules::Sought<Newest>;

// The newest certificate of a range, leaf after leaf. A leaf without one leaves what an earlier one gave.
fn look(t: &mut [u8], n: usize, c: u32, low: u64, high: u64) -> Sought
    requires { (length t.old ≡ n * page_size) × (fit0 n t.old ≡ true) × (low ≤ high) × (high < low + last_key) }
    ensures { seeing t.new result ≡ seen (walk_of n c (range low high) t.old) }
{
    let mut newest = Err(FindError::Missing);
    let mut walk = Leaves::over(low, high);
    while let Some(step) = walk.next(t, n, c) {
        let Ok(leaf) = step else {
            return Sought {
                answer: Err(FindError::Damaged),
                report: walk.report,
            };
        };
        let page = head::page_at(t, leaf.child as usize);
        newest = last_in(page, leaf.spot, leaf.from, newest);
    }
    Sought {
        answer: newest,
        report: walk.report,
    }
}

// Newest by a session's numbers.
pub fn lean(working: &mut [u8], stable: &[u8], n: u16, c: u32, model: u16, serial: u32) -> Sought
    ensures { (s : Session) → s.n ≡ n → s.c ≡ c → leaving (beside s result) working.new stable.now
        ≡ newest_reported working.old stable.now s model serial }
{
    if !tables::lengths_for(n, working, stable) {
        return Sought {
            answer: Err(FindError::Length),
            report: Report::nothing(),
        };
    }
    if model == 0 {
        return Sought {
            answer: Err(FindError::BadKey),
            report: Report::nothing(),
        };
    }
    if serial == 0 {
        return Sought {
            answer: Err(FindError::BadKey),
            report: Report::nothing(),
        };
    }
    let pages = n as usize;
    if !head::fit0(working, pages) {
        return Sought {
            answer: Err(FindError::Damaged),
            report: Report::nothing(),
        };
    }
    let low = keys::key_of(model, serial, 1);
    let high = keys::key_of(model, serial, LAST_FINAL);
    look(working, pages, c, low, high)
}

pub fn newest(
    working: &mut [u8],
    stable: &[u8],
    session: Session,
    model: u16,
    serial: u32,
) -> NewestOf
    ensures { leaving result working.new stable.now
        ≡ newest_reported working.old stable.now session model serial }
{
    let sought = lean(working, stable, session.n, session.c, model, serial);
    let answer = sought.answer;
    let report = sought.report;
    NewestOf {
        answer,
        report,
        session,
    }
}
