// Lookup: the record of a certificate.
//
// `lookup` asks nothing and tests everything, in document 01's order: lengths, the key's parts, page 0, then the way of
// the key. Answer, report, session and every byte lent are those of the rules' `lookup_reported`; what the walk mended
// stays mended, also behind a refusal. The record is that of an entry with the whole key: where the last key not above
// it is another one, the certificate is missing.
//
// `lean` is the same for callers who keep the session where it is: it takes the session's two numbers alone, and for
// every session that has them it does what `lookup` does.
//
// The way ends with the key's spot in its leaf, which was guessed before the leaf was tested and confirmed after it, so
// that a lookup searches no page a second time.
//
// Below stand `tables`, which tests lengths, `keys`, `way`, which walks, and `seek`, which finds a key on a page.

#![tactic(auto)]

ghost use Rattle.std.specs.Prelude.{◌≡◌, true, ◌+◌, ◌*◌, ◌≤◌, length};
ghost use Rattle.rules.specs.Layout.{page_size, leaf_room};
ghost use Rattle.rules.specs.Entry.{find};
ghost use Rattle.rules.specs.Table.{page_at, read, fit0};
ghost use Rattle.rules.specs.Report.{nothing};
ghost use Rattle.rules.specs.Walk.{way_of, way_report};
ghost use Rattle.rules.specs.Reports.{lookup_reported};
ghost use Rattle.rules.specs.declared.Session.{Session};
ghost use Rattle.head.proofs.Headers.{head_of};
ghost use Rattle.way.specs.Ways.{Holds, reported};
ghost use Rattle.rules.specs.Handing.{beside, leaving};
ghost use Rattle.lookup.specs.Looks.{found_before, looked_in, looking, looked_along};

use entries::Entries;
use rules::{FindError, Looked, Looking, Report, Session};
use way::Step;

// What stands under a key in a leaf, by the key's spot: the entry before it has the key, or none has.
pub fn find_on(table: &[u8], i: u16, spot: usize, key: u64) -> Looked
    requires { ((i + 1) * page_size ≤ length table.now) × (spot ≤ leaf_room) }
    ensures { result ≡ found_before key spot (page_at table.now i) }
{
    if spot == 0 {
        return Err(FindError::Missing);
    }
    let page = head::page_at(table, i as usize);
    if head::cert_key(page, spot - 1) != key {
        return Err(FindError::Missing);
    }
    Ok(head::cert_record(page, spot - 1))
}

// What stands under a key in the leaf at the end of a way.
pub fn find_at(table: &[u8], leaf: Step, key: u64) -> Looked
    requires { ((leaf.place.child + 1) * page_size ≤ length table.now)
        × (leaf.head ≡ head_of (read table.now leaf.place.child)) × (Holds (read table.now leaf.place.child).view) }
    ensures { result ≡ looked_in (find key (read table.now leaf.place.child).view.certs) }
{
    let page = head::page_at(table, leaf.place.child as usize);
    let spot = seek::seek(page, Entries::certs(leaf.head.count as usize), key);
    find_on(table, leaf.place.child, spot, key)
}

// What a search along a way comes to: the answer, and what was mended.
pub type Sought = rules::Sought<Looked>;

// A key looked for along its way.
fn look(t: &mut [u8], n: usize, c: u32, key: u64) -> Sought
    requires { (length t.old ≡ n * page_size) × (fit0 n t.old ≡ true) }
    ensures { looking t.new result
        ≡ reported (looked_along key (way_of n c key t.old)) (way_report n c key t.old nothing) }
{
    let ended = way::leaf_of(t, n, c, key);
    let report = ended.report;
    let Some(end) = ended.end else {
        return Sought {
            answer: Err(FindError::Damaged),
            report,
        };
    };
    Sought {
        answer: find_on(t, end.leaf.place.child, end.spot, key),
        report,
    }
}

// A lookup by a session's numbers.
pub fn lean(
    working: &mut [u8],
    stable: &[u8],
    n: u16,
    c: u32,
    model: u16,
    serial: u32,
    issue: u16,
) -> Sought
    ensures { (s : Session) → s.n ≡ n → s.c ≡ c → leaving (beside s result) working.new stable.now
        ≡ lookup_reported working.old stable.now s model serial issue }
{
    if !tables::lengths_for(n, working, stable) {
        return Sought {
            answer: Err(FindError::Length),
            report: Report::nothing(),
        };
    }
    if !keys::good_parts(model, serial, issue) {
        return Sought {
            answer: Err(FindError::BadKey),
            report: Report::nothing(),
        };
    }
    let pages = n as usize;
    if !head::fit0(working, pages) {
        return Sought {
            answer: Err(FindError::Damaged),
            report: Report::nothing(),
        };
    }
    look(working, pages, c, keys::key_of(model, serial, issue))
}

pub fn lookup(
    working: &mut [u8],
    stable: &[u8],
    session: Session,
    model: u16,
    serial: u32,
    issue: u16,
) -> Looking
    ensures { leaving result working.new stable.now
        ≡ lookup_reported working.old stable.now session model serial issue }
{
    let sought = lean(working, stable, session.n, session.c, model, serial, issue);
    let answer = sought.answer;
    let report = sought.report;
    Looking {
        answer,
        report,
        session,
    }
}
