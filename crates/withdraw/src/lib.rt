// Withdraw: a certificate taken out from under its key.
//
// `withdraw` asks nothing and tests everything, in document 01's order: lengths, the key's parts, page 0, the way of the
// key, whether the key is there. Only then does it write. Answer, report, session and every byte lent are those of the
// rules' `withdraw_reported`; what the walk mended stays mended, also behind a refusal. The leaf stays, even if it is
// empty, and so does every page above it: a withdrawal takes no page and gives none back.
//
// Below stand `tables`, which tests lengths, `keys`, `leaves`, which goes down to the key's leaf, `lookup`, which finds
// a key in a leaf, and `edit`, which takes the entry out. A lookup goes down by `way` instead: what two calls share is a
// function of its own in the object code, and lookup would pay for that.

#![tactic(auto)]

ghost use Rattle.std.specs.Prelude.{◌≡◌, true, List, ℕ, ◌*◌, length};
ghost use Rattle.rules.specs.Layout.{page_size};
ghost use Rattle.rules.specs.Table.{fit0};
ghost use Rattle.rules.specs.Report.{nothing};
ghost use Rattle.rules.specs.Walk.{way_report};
ghost use Rattle.rules.specs.Withdraw.{withdraw_key};
ghost use Rattle.rules.specs.Reports.{withdraw_reported};
ghost use Rattle.way.specs.Ways.{reported};
ghost use Rattle.rules.specs.Handing.{leaving};

use rules::{FindError, Report, Session, Withdrawing};

// A key's certificate taken out of the leaf at the end of its way.
fn take_out(t: &mut [u8], session: Session, key: u64) -> Withdrawing
    requires { (length t.old ≡ session.n * page_size) × (fit0 session.n t.old ≡ true) }
    ensures { (stable : List ℕ) → leaving result t.new stable
        ≡ reported (withdraw_key key session t.old stable) (way_report session.n session.c key t.old nothing) }
{
    let n = session.n as usize;
    let first = leaves::start();
    match leaves::next(t, n, session.c, key, key, first, Report::nothing()) {
        Err(report) => {
            return Withdrawing {
                answer: Err(FindError::Damaged),
                report,
                session,
            };
        }
        Ok(leaf) => {
            let report = leaf.report;
            let Ok(_) = lookup::find_on(t, leaf.child, leaf.spot, key) else {
                return Withdrawing {
                    answer: Err(FindError::Missing),
                    report,
                    session,
                };
            };
            edit::remove_cert(t, leaf.child as usize, key, session.c);
            let lowered = session.uncount();
            return Withdrawing {
                answer: Ok(()),
                report,
                session: lowered,
            };
        }
    }
}

pub fn withdraw(
    working: &mut [u8],
    stable: &[u8],
    session: Session,
    model: u16,
    serial: u32,
    issue: u16,
) -> Withdrawing
    ensures { leaving result working.new stable.now
        ≡ withdraw_reported working.old stable.now session model serial issue }
{
    if !tables::lengths_for(session.n, working, stable) {
        return Withdrawing {
            answer: Err(FindError::Length),
            report: Report::nothing(),
            session,
        };
    }
    if !keys::good_parts(model, serial, issue) {
        return Withdrawing {
            answer: Err(FindError::BadKey),
            report: Report::nothing(),
            session,
        };
    }
    if !head::fit0(working, session.n as usize) {
        return Withdrawing {
            answer: Err(FindError::Damaged),
            report: Report::nothing(),
            session,
        };
    }
    take_out(working, session, keys::key_of(model, serial, issue))
}
