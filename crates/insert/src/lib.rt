// Insert: a certificate put under its key.
//
// `insert` asks nothing and tests everything, in document 01's order: lengths, the key's parts, page 0, the way of the
// key, whether the key is there, whether a full page must wait for a sync, whether pages enough are free. Only then
// does it count and write. Answer, session and every byte lent are those of the rules' `insert`; what the walk mended
// stays mended, also behind a refusal.
//
// Below stand `tables`, which tests lengths, `keys`, `way`, which walks, `lookup`, which finds a key in a leaf, `plan`,
// which decides, and `apply`, which splits pages, puts the entry and has the marks.

#![tactic(auto)]

ghost use Rattle.std.specs.Prelude.{◌≡◌, ◌+◌, ◌*◌, ◌≤◌, length};
ghost use Rattle.rules.specs.Layout.{page_size};
ghost use Rattle.rules.specs.Entry.{find};
ghost use Rattle.rules.specs.Table.{read};
ghost use Rattle.rules.specs.Reports.{insert_reported};
ghost use Rattle.rules.specs.declared.Session.{Session};
ghost use Rattle.head.proofs.Headers.{head_of};
ghost use Rattle.way.specs.Ways.{Holds};
ghost use Rattle.rules.specs.Handing.{leaving};
ghost use Rattle.insert.specs.Inserts.{present_in, decided_on, Deciding, tested_by};

use rules::{InsertError, Inserted, Inserting, Report, Session};
use way::Step;

// The key is in the leaf, with any record.
fn is_present(table: &[u8], leaf: Step, key: u64) -> bool
    requires { ((leaf.place.child + 1) * page_size ≤ length table.now)
        × (leaf.head ≡ head_of (read table.now leaf.place.child)) × (Holds (read table.now leaf.place.child).view) }
    ensures { result ≡ present_in (find key (read table.now leaf.place.child).view.certs) }
{
    lookup::find_at(table, leaf, key).is_ok()
}

// The answer along a way, before anything is written: done where the insert is to go on.
fn decided(t: &[u8], c: u32, key: u64, way: &[Step], chosen: &[u16]) -> Inserted
    requires { Deciding c key t.now way.now chosen.now }
    ensures { (d : Deciding c key t.now way.now chosen.now) → result ≡ decided_on key d.session way.now t.now }
{
    let present = is_present(t, way[0], key);
    plan::plan(c, way, present, chosen)
}

// The answer of the tests that come before the walk: done where all pass.
fn tested(working: &[u8], stable: &[u8], n: u16, model: u16, serial: u32, issue: u16) -> Inserted
    ensures { (s : Session) → s.n ≡ n
        → result ≡ tested_by s working.now stable.now model serial issue }
{
    if !tables::lengths_for(n, working, stable) {
        return Err(InsertError::Length);
    }
    if !keys::good_parts(model, serial, issue) {
        return Err(InsertError::BadKey);
    }
    if !head::fit0(working, n as usize) {
        return Err(InsertError::Damaged);
    }
    Ok(())
}

pub fn insert(
    working: &mut [u8],
    stable: &[u8],
    session: Session,
    model: u16,
    serial: u32,
    issue: u16,
    value: u32,
) -> Inserting
    ensures { leaving result working.new stable.now
        ≡ insert_reported working.old stable.now session model serial issue value }
{
    let tests = tested(working, stable, session.n, model, serial, issue);
    let Ok(()) = tests else {
        return Inserting {
            answer: tests,
            report: Report::nothing(),
            session,
        };
    };
    let key = keys::key_of(model, serial, issue);
    let went = way::way_of(working, session.n as usize, session.c, key);
    let report = went.report;
    let Some(way) = &went.way else {
        return Inserting {
            answer: Err(InsertError::Damaged),
            report,
            session,
        };
    };
    let steps = way.as_slice();
    let chosen = plan::choose(&session, steps);
    let pages = chosen.as_slice();
    let answer = decided(working, session.c, key, steps, pages);
    let Ok(()) = answer else {
        return Inserting {
            answer,
            report,
            session,
        };
    };
    apply::apply(working, session.c, key, value, steps, pages);
    let left = apply::marked(session.count(), steps, pages);
    Inserting {
        answer,
        report,
        session: left,
    }
}
