// Has-any: whether a meter has a certificate, a provisional one too.
//
// `has_any` asks nothing and tests everything, in document 01's order: lengths, model and serial, page 0, then leaf
// after leaf of the meter, up to the first that holds a certificate of it. Answer, report, session and every byte lent
// are those of the rules' `has_any_reported`; what was mended on the way stays mended and is reported, also behind a
// refusal. A leaf beyond the first certificate is not looked at, so its damage is not told.
//
// `lean` is the same for callers who keep the session where it is: it takes the session's two numbers alone, and for
// every session that has them it does what `has_any` does.
//
// Of each leaf one key is looked at, the last that is not above the meter's keys. The others are read in the test of the
// page alone.
//
// Below stand `tables`, which tests lengths, `keys`, and `leaves`, which steps from leaf to leaf.

#![tactic(auto)]

ghost use Rattle.std.specs.Prelude.{◌≡◌, true, ◌+◌, ◌*◌, ◌≤◌, length};
ghost use Rattle.rules.specs.Layout.{page_size, leaf_room};
ghost use Rattle.rules.specs.Table.{page_at, fit0};
ghost use Rattle.rules.specs.Walk.{walk_of};
ghost use Rattle.rules.specs.Reports.{has_any_reported};
ghost use Rattle.rules.specs.declared.Session.{Session};
ghost use Rattle.rules.specs.Handing.{beside, leaving};
ghost use Rattle.any.specs.Anys.{first, holds_in, seeing, seen};

use leaves::Leaves;
use rules::{Any, AnyError, AnyOf, LARGEST_ISSUE, Report, Session};

// Whether the last certificate before a spot of leaf i is not below a key.
fn holds(t: &[u8], i: u16, spot: usize, low: u64) -> bool
    requires { ((i + 1) * page_size ≤ length t.now) × (spot ≤ leaf_room) }
    ensures { result ≡ holds_in low spot (page_at t.now i) }
{
    if spot == 0 {
        return false;
    }
    low <= head::cert_key(head::page_at(t, i as usize), spot - 1)
}

// What a walk up to the first certificate comes to: the answer, and what was mended.
pub type Sought = rules::Sought<Any>;

// Leaf after leaf of a range, up to the first that holds a key of it.
fn look(t: &mut [u8], n: usize, c: u32, low: u64, high: u64) -> Sought
    requires { (length t.old ≡ n * page_size) × (fit0 n t.old ≡ true) × (low ≤ high) }
    ensures { seeing t.new result ≡ seen (walk_of n c (first low high) t.old) }
{
    let mut walk = Leaves::over(low, high);
    while let Some(step) = walk.next(t, n, c) {
        let Ok(leaf) = step else {
            return Sought {
                answer: Err(AnyError::Damaged),
                report: walk.report,
            };
        };
        if holds(t, leaf.child, leaf.spot, leaf.from) {
            return Sought {
                answer: Ok(true),
                report: walk.report,
            };
        }
    }
    Sought {
        answer: Ok(false),
        report: walk.report,
    }
}

// Has-any by a session's numbers.
pub fn lean(working: &mut [u8], stable: &[u8], n: u16, c: u32, model: u16, serial: u32) -> Sought
    ensures { (s : Session) → s.n ≡ n → s.c ≡ c → leaving (beside s result) working.new stable.now
        ≡ has_any_reported working.old stable.now s model serial }
{
    if !tables::lengths_for(n, working, stable) {
        return Sought {
            answer: Err(AnyError::Length),
            report: Report::nothing(),
        };
    }
    if model == 0 {
        return Sought {
            answer: Err(AnyError::BadKey),
            report: Report::nothing(),
        };
    }
    if serial == 0 {
        return Sought {
            answer: Err(AnyError::BadKey),
            report: Report::nothing(),
        };
    }
    let pages = n as usize;
    if !head::fit0(working, pages) {
        return Sought {
            answer: Err(AnyError::Damaged),
            report: Report::nothing(),
        };
    }
    let low = keys::key_of(model, serial, 1);
    let high = keys::key_of(model, serial, LARGEST_ISSUE);
    look(working, pages, c, low, high)
}

pub fn has_any(
    working: &mut [u8],
    stable: &[u8],
    session: Session,
    model: u16,
    serial: u32,
) -> AnyOf
    ensures { leaving result working.new stable.now
        ≡ has_any_reported working.old stable.now session model serial }
{
    let sought = lean(working, stable, session.n, session.c, model, serial);
    let answer = sought.answer;
    let report = sought.report;
    AnyOf {
        answer,
        report,
        session,
    }
}
