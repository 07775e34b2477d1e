// The store: certificates and their records, kept through crashes.
//
// A certificate has a model, a serial and an issue, none of them 0; its record is any 32-bit number. The caller lends
// two tables of bytes: `working`, in memory, and `stable`, which outlasts a crash. Both have 512 bytes for each of n
// pages, 4 ≤ n ≤ 128. A session is handed in and handed back with each call but `format` and `open`; `open` hands out the
// first. Nothing is required of a caller: any bytes, any lengths, any session and any key get an answer.
//
//     format    once: stable becomes an empty store
//     open      at the start and after a crash: working becomes a copy of stable, and a session is handed out
//     insert    puts a certificate in; from the next sync on it outlasts every crash
//     batch     inserts a delivery's certificates in list order, and answers each
//     withdraw  takes a certificate out; a crash before the next sync may bring it back
//     read_file  inserts the certificates of an exchange file in its order, and says how many were done
//     lookup    the record of a certificate
//     newest    the largest issue of a meter, and its record
//     has_any   whether a meter has a certificate
//     list      the certificates from a start key upwards, into two lent lists, up to the shorter one
//     write_file  the exchange file of all certificates, into a lent output
//     sync      stable becomes a copy of working
//
// Each answer is a `Result`. `Err` holds why a call is refused, by an error enum that has the refusals of this call and
// no others; `Ok` holds what a call that is done tells. The enums are declared in `rules`, `ReadError` in `exchange`
// and `WriteError` in `write`. `format` hands back its answer alone, every other call a struct: its `answer`, the
// session and, if it walks, the report of what it mended.
//
//     format, batch             Ok(()), or LengthError: Length
//     open                      Ok(()), or OpenError: Length, Damaged, Spent
//     insert                    Ok(()), or InsertError: Length, BadKey, Damaged, Present, SyncFirst, Full
//     withdraw                  Ok(()), or FindError: Length, BadKey, Damaged, Missing
//     lookup                    Ok(record), or FindError
//     newest                    Ok(Latest), the issue and the record, or FindError
//     has_any                   Ok(true) or Ok(false), or AnyError: Length, BadKey, Damaged
//     list                      Ok(count) of the places filled, or ListError: Length, Damaged
//     read_file                 Ok(count) of the certificates done, or ReadError: Length, File(byte)
//     write_file                Ok(length) of the file, or WriteError: Length, Damaged, Short
//     sync                      Ok(()), or SyncError: Length, Spent
//
// What the refusals mean; where more than one would do, the one named first is given:
//
//     Length     a table's length is wrong, the two differ, or the session is that of other tables
//     File       read_file: the bytes are not the file of any set of certificates; nothing is inserted
//     BadKey     a zero model, serial or issue
//     Damaged    a page that the call needs is spoilt and cannot be mended, or page 0 is
//     Missing    withdraw, lookup, newest: there is no such certificate
//     Present    insert: the certificate is there, with whatever record
//     SyncFirst  insert: sync, and try again
//     Full       insert: too few pages are free; sync, and try again
//     Spent      open, sync: the counter is at its end
//     Short      write_file: the output cannot hold the file
//
// What a refused call leaves: the session as it was handed in, the stable table, the lists and the output as they were,
// and in the working table nothing changed but pages that the call mended on its way; a mended page holds those entries
// of its previous page that lie in its range. Pages reach the stable table in `sync`, in `format`, in one page write of
// `open`, and at a crash.
//
// Each contract is one equation with the rule of that name: answer, session and every byte lent are the rule's. What
// the rules promise of crashes is the theorem `demand3` of `rules`. Stack: no function takes more than 2 KiB, as
// `tools/frames` reads off the object code, and no call holds more in local arrays but `batch`, whose functions' frames
// have room for eleven sessions' marks at most.
//
// Of a session a call that only reads needs two numbers, n and c, and hands it back as it came. Its lean form,
// `lean_lookup` and so on, takes them instead and hands no session back. It promises of every session with these
// numbers what the call promises: the same answer, report and bytes.
//
// Below stand the calls, a crate each.

#![tactic(auto)]

ghost use Rattle.std.specs.Prelude.{◌≡◌};
ghost use Rattle.rules.specs.Batch;
ghost use Rattle.rules.specs.Format;
ghost use Rattle.rules.specs.Handing;
ghost use Rattle.rules.specs.Open;
ghost use Rattle.rules.specs.Reports.{insert_reported, withdraw_reported, lookup_reported, newest_reported, has_any_reported, list_reported};
ghost use Rattle.rules.specs.Sync;
ghost use Rattle.rules.specs.declared.Session.{Session};
ghost use Rattle.format.specs.Formats;
ghost use Rattle.batch.specs.Turns;
ghost use Rattle.exchange.specs.ReadFile.{read_file};
ghost use Rattle.read.specs.Readings;
ghost use Rattle.list.specs.Lists;
ghost use Rattle.write.specs.WriteFile.{write_reported};
ghost use Rattle.write.specs.Calls;

use exchange::Reading;
use rules::{
    AnyOf, Batching, Formatted, Inserting, Item, Listing, Looking, NewestOf, Opening, Session,
    Syncing, Withdrawing,
};
use write::Writing;

// `Ok(())`, or `LengthError`: `Length`. The working table is only measured.
pub fn format(working: &[u8], stable: &mut [u8]) -> Formatted
    ensures { Formats.formatting result stable.new
        ≡ Format.format working.now stable.old }
{
    format::format(working, stable)
}

// `Ok(())`, or `OpenError`: `Length`, `Damaged` or `Spent`. A refused opening hands out the session of nobody, with
// which every call that takes a session is refused for `Length`.
pub fn open(working: &mut [u8], stable: &mut [u8]) -> Opening
    ensures { Handing.left result working.new stable.new
        ≡ Open.opening working.old stable.old }
{
    opening::open(working, stable)
}

// `Ok(())`, or `InsertError`: `Length`, `BadKey`, `Damaged`, `Present`, `SyncFirst` or `Full`.
pub fn insert(
    working: &mut [u8],
    stable: &[u8],
    session: Session,
    model: u16,
    serial: u32,
    issue: u16,
    value: u32,
) -> Inserting
    ensures { Handing.leaving result working.new stable.now
        ≡ insert_reported working.old stable.now session model serial issue value }
{
    insert::insert(working, stable, session, model, serial, issue, value)
}

// `Ok(())`, or `FindError`: `Length`, `BadKey`, `Damaged` or `Missing`.
pub fn withdraw(
    working: &mut [u8],
    stable: &[u8],
    session: Session,
    model: u16,
    serial: u32,
    issue: u16,
) -> Withdrawing
    ensures { Handing.leaving result working.new stable.now
        ≡ withdraw_reported working.old stable.now session model serial issue }
{
    withdraw::withdraw(working, stable, session, model, serial, issue)
}

// `Ok(())`, or `LengthError`: `Length`. If it is done, each item has got the answer that an insert of it would give, as
// a number, 1 never among them.
pub fn batch(working: &mut [u8], stable: &[u8], session: Session, items: &mut [Item]) -> Batching
    ensures { Turns.leaving result working.new stable.now items.new
        ≡ Batch.batch working.old stable.now session items.old }
{
    batch::batch(working, stable, session, items)
}

// `Ok` with how many certificates of the file were done, or `ReadError`: `Length`, or `File` with the byte where its
// first bad item begins.
pub fn read_file(working: &mut [u8], stable: &[u8], session: Session, file: &[u8]) -> Reading
    ensures { Readings.leaving result working.new stable.now
        ≡ read_file working.old stable.now session file.now }
{
    read::read_file(working, stable, session, file)
}

// `Ok` with the record, or `FindError`: `Length`, `BadKey`, `Damaged` or `Missing`.
pub fn lookup(
    working: &mut [u8],
    stable: &[u8],
    session: Session,
    model: u16,
    serial: u32,
    issue: u16,
) -> Looking
    ensures { Handing.leaving result working.new stable.now
        ≡ lookup_reported working.old stable.now session model serial issue }
{
    lookup::lookup(working, stable, session, model, serial, issue)
}

// `Ok` with the largest issue and its record, a `Latest`, or `FindError`: `Length`, `BadKey`, `Damaged` or `Missing`.
pub fn newest(
    working: &mut [u8],
    stable: &[u8],
    session: Session,
    model: u16,
    serial: u32,
) -> NewestOf
    ensures { Handing.leaving result working.new stable.now
        ≡ newest_reported working.old stable.now session model serial }
{
    newest::newest(working, stable, session, model, serial)
}

// `Ok(true)` or `Ok(false)`, or `AnyError`: `Length`, `BadKey` or `Damaged`. Provisional certificates count; what lies
// beyond the first one found is not looked at.
pub fn has_any(
    working: &mut [u8],
    stable: &[u8],
    session: Session,
    model: u16,
    serial: u32,
) -> AnyOf
    ensures { Handing.leaving result working.new stable.now
        ≡ has_any_reported working.old stable.now session model serial }
{
    any::has_any(working, stable, session, model, serial)
}

// `Ok` with how many places of both lists it filled, or `ListError`: `Length` or `Damaged`. A start is any number: a
// key is model times 2^48, serial times 2^16 and issue.
pub fn list(
    working: &mut [u8],
    stable: &[u8],
    session: Session,
    start: u64,
    keys: &mut [u64],
    records: &mut [u32],
) -> Listing
    ensures { Lists.leaving result working.new stable.now keys.new records.new
        ≡ list_reported working.old stable.now session start keys.old records.old }
{
    list::list(working, stable, session, start, keys, records)
}

// `Ok` with the file's length, or `WriteError`: `Length`, `Damaged` or `Short`.
pub fn write_file(working: &mut [u8], stable: &[u8], session: Session, out: &mut [u8]) -> Writing
    ensures { Calls.leaving result working.new stable.now out.new
        ≡ write_reported working.old stable.now session out.old }
{
    write::write_file(working, stable, session, out)
}

// `Ok(())`, or `SyncError`: `Length` or `Spent`.
pub fn sync(working: &mut [u8], stable: &mut [u8], session: Session) -> Syncing
    ensures { Handing.left result working.new stable.new
        ≡ Sync.sync working.old stable.old session }
{
    sync::sync(working, stable, session)
}

// As lookup, by a session's numbers.
pub fn lean_lookup(
    working: &mut [u8],
    stable: &[u8],
    n: u16,
    c: u32,
    model: u16,
    serial: u32,
    issue: u16,
) -> lookup::Sought
    ensures { (s : Session) → s.n ≡ n → s.c ≡ c → Handing.leaving (Handing.beside s result) working.new stable.now
        ≡ lookup_reported working.old stable.now s model serial issue }
{
    lookup::lean(working, stable, n, c, model, serial, issue)
}

// As newest, by a session's numbers.
pub fn lean_newest(
    working: &mut [u8],
    stable: &[u8],
    n: u16,
    c: u32,
    model: u16,
    serial: u32,
) -> newest::Sought
    ensures { (s : Session) → s.n ≡ n → s.c ≡ c → Handing.leaving (Handing.beside s result) working.new stable.now
        ≡ newest_reported working.old stable.now s model serial }
{
    newest::lean(working, stable, n, c, model, serial)
}

// As has_any, by a session's numbers.
pub fn lean_has_any(
    working: &mut [u8],
    stable: &[u8],
    n: u16,
    c: u32,
    model: u16,
    serial: u32,
) -> any::Sought
    ensures { (s : Session) → s.n ≡ n → s.c ≡ c → Handing.leaving (Handing.beside s result) working.new stable.now
        ≡ has_any_reported working.old stable.now s model serial }
{
    any::lean(working, stable, n, c, model, serial)
}

// As list, by a session's numbers.
pub fn lean_list(
    working: &mut [u8],
    stable: &[u8],
    n: u16,
    c: u32,
    start: u64,
    keys: &mut [u64],
    records: &mut [u32],
) -> list::Sought
    ensures { (s : Session) → s.n ≡ n → s.c ≡ c
        → Lists.leaving (Handing.beside s result) working.new stable.now keys.new records.new
        ≡ list_reported working.old stable.now s start keys.old records.old }
{
    list::lean(working, stable, n, c, start, keys, records)
}

// As write_file, by a session's numbers.
pub fn lean_write_file(
    working: &mut [u8],
    stable: &[u8],
    n: u16,
    c: u32,
    out: &mut [u8],
) -> write::Sought
    ensures { (s : Session) → s.n ≡ n → s.c ≡ c
        → Calls.leaving (Handing.beside s result) working.new stable.now out.new
        ≡ write_reported working.old stable.now s out.old }
{
    write::lean(working, stable, n, c, out)
}
