// The store for callers in C: its calls under C names, with numbers for answers.
//
// Each call is that of `store`, of which every word holds here too: nothing is required but what C asks of any caller.
// Slices are a pointer and a length; a session goes in and comes back by value, laid out as C lays it out. An answer is
// the paper's number, 0 to 9, or 11, and the numbers beside a refusal are 0. include/khirpando.h declares the same for C.
//
// Each contract is one equation: what is handed back and every byte lent are the rule's, with its answer as a number.
// Reading calls hand the session back from where it was handed in, which spares three copies of it: the rules say that
// it comes back as it came. `lean` has them once more without it, by its numbers. `kh_insert` calls `insert` itself,
// which promises what `store`'s insert does: the batch calls it too, so it is a function of its own, and through
// `store` a session would be copied once more.
//
// `kh_batch` is lent a slice of structs: it hands its slices on and leaves the numbers to `delivered`.
//
// Below stand `store`, `insert`, `numbers`, for the number of an answer and those beside it, `write`, for a file's
// length, `read`, for how many were done and for a byte's place, and `rules`.

#![tactic(auto)]

mod lean;

ghost use Rattle.std.specs.Prelude.{◌≡◌};
ghost use Rattle.rules.specs.Call.{opened_no, inserted_no, synced_no};
ghost use Rattle.rules.specs.Batch;
ghost use Rattle.rules.specs.Format;
ghost use Rattle.rules.specs.Open;
ghost use Rattle.rules.specs.Reports.{insert_reported, withdraw_reported, lookup_reported, newest_reported, has_any_reported, list_reported};
ghost use Rattle.rules.specs.Sync;
ghost use Rattle.write.specs.WriteFile.{write_reported};
ghost use Rattle.exchange.specs.ReadFile.{read_file};
ghost use Rattle.exports.specs.Leaves as C;

use rules::{Batching, Item, Session};

#[repr(C)]
#[derive(Clone, Copy)]
pub struct KhAnswered {
    pub answer: u32,
    pub session: Session,
}

#[repr(C)]
#[derive(Clone, Copy)]
pub struct KhChanged {
    pub answer: u32,
    pub mended: u32,
    pub reason: u32,
    pub session: Session,
}

#[repr(C)]
#[derive(Clone, Copy)]
pub struct KhRead {
    pub answer: u32,
    pub done: u32,
    pub place: u64,
    pub mended: u32,
    pub reason: u32,
    pub session: Session,
}

#[repr(C)]
#[derive(Clone, Copy)]
pub struct KhLooked {
    pub answer: u32,
    pub record: u32,
    pub mended: u32,
    pub reason: u32,
    pub session: Session,
}

#[repr(C)]
#[derive(Clone, Copy)]
pub struct KhNewest {
    pub answer: u32,
    pub issue: u32,
    pub record: u32,
    pub mended: u32,
    pub reason: u32,
    pub session: Session,
}

#[repr(C)]
#[derive(Clone, Copy)]
pub struct KhAny {
    pub answer: u32,
    pub any: u32,
    pub mended: u32,
    pub reason: u32,
    pub session: Session,
}

#[repr(C)]
#[derive(Clone, Copy)]
pub struct KhListed {
    pub answer: u32,
    pub count: u64,
    pub mended: u32,
    pub reason: u32,
    pub session: Session,
}

#[repr(C)]
#[derive(Clone, Copy)]
pub struct KhWritten {
    pub answer: u32,
    pub length: u64,
    pub mended: u32,
    pub reason: u32,
    pub session: Session,
}

#[unsafe(no_mangle)]
pub extern "C" fn kh_format(working: &[u8], stable: &mut [u8]) -> u32
    ensures { C.formatting result stable.new
        ≡ C.formatted (Format.format working.now stable.old) }
{
    numbers::number(store::format(working, stable))
}

#[unsafe(no_mangle)]
pub extern "C" fn kh_open(working: &mut [u8], stable: &mut [u8]) -> KhAnswered
    ensures { C.leaves result working.new stable.new
        ≡ C.answered opened_no (Open.opening working.old stable.old) }
{
    let left = store::open(working, stable);
    let answer = left.answer;
    let session = left.session;
    KhAnswered {
        answer: numbers::number(answer),
        session,
    }
}

#[unsafe(no_mangle)]
pub extern "C" fn kh_insert(
    working: &mut [u8],
    stable: &[u8],
    session: Session,
    model: u16,
    serial: u32,
    issue: u16,
    value: u32,
) -> KhChanged
    ensures { C.leaves result working.new stable.now
        ≡ C.inserted (insert_reported working.old stable.now session model serial issue value) }
{
    let left = insert::insert(working, stable, session, model, serial, issue, value);
    let answer = left.answer;
    let report = left.report;
    let reason = report.reason;
    let session = left.session;
    KhChanged {
        answer: numbers::number(answer),
        mended: report.mended,
        reason: numbers::reason(reason),
        session,
    }
}

// What a batch handed back, for C.
fn delivered(left: Batching) -> KhChanged
    ensures { result ≡ C.batched_back left.answer left.report left.session }
{
    let answer = left.answer;
    let report = left.report;
    let reason = report.reason;
    let session = left.session;
    KhChanged {
        answer: numbers::number(answer),
        mended: report.mended,
        reason: numbers::reason(reason),
        session,
    }
}

#[unsafe(no_mangle)]
pub extern "C" fn kh_batch(
    working: &mut [u8],
    stable: &[u8],
    session: Session,
    items: &mut [Item],
) -> KhChanged
    ensures { C.batching result working.new stable.now items.new
        ≡ C.batched (Batch.batch working.old stable.now session items.old) }
{
    let left = store::batch(working, stable, session, items);
    delivered(left)
}

#[unsafe(no_mangle)]
pub extern "C" fn kh_withdraw(
    working: &mut [u8],
    stable: &[u8],
    session: Session,
    model: u16,
    serial: u32,
    issue: u16,
) -> KhChanged
    ensures { C.leaves result working.new stable.now
        ≡ C.withdrawn (withdraw_reported working.old stable.now session model serial issue) }
{
    let left = store::withdraw(working, stable, session, model, serial, issue);
    let answer = left.answer;
    let report = left.report;
    let reason = report.reason;
    let session = left.session;
    KhChanged {
        answer: numbers::number(answer),
        mended: report.mended,
        reason: numbers::reason(reason),
        session,
    }
}

#[unsafe(no_mangle)]
pub extern "C" fn kh_read_file(
    working: &mut [u8],
    stable: &[u8],
    session: Session,
    file: &[u8],
) -> KhRead
    ensures { C.leaves result working.new stable.now
        ≡ C.read (read_file working.old stable.now session file.now) }
{
    let left = store::read_file(working, stable, session, file);
    let answer = left.answer;
    let report = left.report;
    let reason = report.reason;
    let session = left.session;
    KhRead {
        answer: numbers::number(answer),
        done: read::done(answer),
        place: read::place(answer),
        mended: report.mended,
        reason: numbers::reason(reason),
        session,
    }
}

#[unsafe(no_mangle)]
pub extern "C" fn kh_lookup(
    working: &mut [u8],
    stable: &[u8],
    session: Session,
    model: u16,
    serial: u32,
    issue: u16,
) -> KhLooked
    ensures { C.leaves result working.new stable.now
        ≡ C.looked (lookup_reported working.old stable.now session model serial issue) }
{
    let left = store::lean_lookup(working, stable, session.n, session.c, model, serial, issue);
    let answer = left.answer;
    let report = left.report;
    let reason = report.reason;
    KhLooked {
        answer: numbers::number(answer),
        record: numbers::looked_record(answer),
        mended: report.mended,
        reason: numbers::reason(reason),
        session,
    }
}

#[unsafe(no_mangle)]
pub extern "C" fn kh_newest(
    working: &mut [u8],
    stable: &[u8],
    session: Session,
    model: u16,
    serial: u32,
) -> KhNewest
    ensures { C.leaves result working.new stable.now
        ≡ C.newest (newest_reported working.old stable.now session model serial) }
{
    let left = store::lean_newest(working, stable, session.n, session.c, model, serial);
    let answer = left.answer;
    let report = left.report;
    let reason = report.reason;
    KhNewest {
        answer: numbers::number(answer),
        issue: numbers::newest_issue(answer),
        record: numbers::newest_record(answer),
        mended: report.mended,
        reason: numbers::reason(reason),
        session,
    }
}

#[unsafe(no_mangle)]
pub extern "C" fn kh_has_any(
    working: &mut [u8],
    stable: &[u8],
    session: Session,
    model: u16,
    serial: u32,
) -> KhAny
    ensures { C.leaves result working.new stable.now
        ≡ C.any (has_any_reported working.old stable.now session model serial) }
{
    let left = store::lean_has_any(working, stable, session.n, session.c, model, serial);
    let answer = left.answer;
    let report = left.report;
    let reason = report.reason;
    KhAny {
        answer: numbers::number(answer),
        any: numbers::any_yes(answer),
        mended: report.mended,
        reason: numbers::reason(reason),
        session,
    }
}

#[unsafe(no_mangle)]
pub extern "C" fn kh_list(
    working: &mut [u8],
    stable: &[u8],
    session: Session,
    start: u64,
    keys: &mut [u64],
    records: &mut [u32],
) -> KhListed
    ensures { C.listing result working.new stable.now keys.new records.new
        ≡ C.listed (list_reported working.old stable.now session start keys.old records.old) }
{
    let left = store::lean_list(working, stable, session.n, session.c, start, keys, records);
    let answer = left.answer;
    let report = left.report;
    let reason = report.reason;
    KhListed {
        answer: numbers::number(answer),
        count: numbers::listed_count(answer),
        mended: report.mended,
        reason: numbers::reason(reason),
        session,
    }
}

#[unsafe(no_mangle)]
pub extern "C" fn kh_write_file(
    working: &mut [u8],
    stable: &[u8],
    session: Session,
    out: &mut [u8],
) -> KhWritten
    ensures { C.writing result working.new stable.now out.new
        ≡ C.written (write_reported working.old stable.now session out.old) }
{
    let left = store::lean_write_file(working, stable, session.n, session.c, out);
    let answer = left.answer;
    let report = left.report;
    let reason = report.reason;
    KhWritten {
        answer: numbers::number(answer),
        length: write::length_of(answer),
        mended: report.mended,
        reason: numbers::reason(reason),
        session,
    }
}

#[unsafe(no_mangle)]
pub extern "C" fn kh_sync(working: &mut [u8], stable: &mut [u8], session: Session) -> KhAnswered
    ensures { C.leaves result working.new stable.new
        ≡ C.answered synced_no (Sync.sync working.old stable.old session) }
{
    let left = store::sync(working, stable, session);
    let answer = left.answer;
    let session = left.session;
    KhAnswered {
        answer: numbers::number(answer),
        session,
    }
}
