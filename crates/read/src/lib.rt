// The exchange file read: its certificates go into a store.
//
// `read_file` asks nothing. It tests lengths, then the whole file, before anything is entered; then each certificate,
// in the file's order, is inserted into what those before it left, also after one that was refused, and those that are
// done are counted. Answer, session, report and every byte lent are those of the rule `read_file`.
//
// The file is read where it lies: no list is made of it, and the loop is bounded by its certificates.
//
// Below stand `tables`, which tests lengths, `exchange`, which judges a file and finds its certificates, and `insert`.

#![tactic(auto)]

ghost use Rattle.std.specs.Prelude.{◌≡◌, ◌+◌, ◌<◌, Ok};
ghost use Rattle.exchange.specs.Judged.{checked};
ghost use Rattle.exchange.specs.Told.{certs_in};
ghost use Rattle.exchange.specs.ReadFile.{as_item, as_items, read_file, read_count, read_place};
ghost use Rattle.read.specs.Readings.{leaving, running, beginning, one_more, goes};

use exchange::{Certificate, Read, ReadError, Reading};
use rules::{Report, Session};

// What stands between two certificates, beside the working table: how many were done, the report so far, and the session.
#[derive(Clone, Copy)]
pub struct Made {
    pub done: u32,
    pub report: Report,
    pub session: Session,
}

// A certificate is inserted, and counted if it is done.
fn enter(working: &mut [u8], stable: &[u8], made: Made, certificate: Certificate) -> Made
    requires { made.done + 1 < 4294967296 }
    ensures { running result working.new
        ≡ one_more stable.now (running made working.old) (as_item certificate) }
{
    let inserted = insert::insert(
        working,
        stable,
        made.session,
        certificate.model,
        certificate.serial,
        certificate.issue,
        certificate.record,
    );
    Made {
        done: made.done + u32::from(inserted.answer.is_ok()),
        report: made.report.join(inserted.report),
        session: inserted.session,
    }
}

// All certificates of an accepted file, in its order.
fn enter_all(working: &mut [u8], stable: &[u8], session: Session, file: &[u8], count: u32) -> Made
    requires { checked file.now ≡ Ok count }
    ensures { running result working.new
        ≡ goes stable.now (beginning working.old session) (as_items (certs_in file.now)) }
{
    let mut made = Made {
        done: 0,
        report: Report::nothing(),
        session,
    };
    for place in 0..count {
        made = enter(working, stable, made, exchange::cert_at(file, place));
    }
    made
}

pub fn read_file(working: &mut [u8], stable: &[u8], session: Session, file: &[u8]) -> Reading
    ensures { leaving result working.new stable.now
        ≡ read_file working.old stable.now session file.now }
{
    if !tables::lengths_for(session.n, working, stable) {
        return Reading {
            answer: Err(ReadError::Length),
            report: Report::nothing(),
            session,
        };
    }
    match exchange::check(file) {
        Err(place) => Reading {
            answer: Err(ReadError::File(place)),
            report: Report::nothing(),
            session,
        },
        Ok(count) => {
            let made = enter_all(working, stable, session, file, count);
            Reading {
                answer: Ok(made.done),
                report: made.report,
                session: made.session,
            }
        }
    }
}

// The numbers beside an answer: how many were done, and the byte place. They are 0 beside any other answer.

#[tactic(auto, unfolding(exchange::specs::ReadFile::read_count))]
pub fn done(answer: Read) -> u32
    ensures { result ≡ read_count answer }
{
    answer.unwrap_or(0)
}

#[tactic(auto, unfolding(exchange::specs::ReadFile::read_place))]
pub fn place(answer: Read) -> u64
    ensures { result ≡ read_place answer }
{
    match answer {
        Err(ReadError::File(at)) => at as u64,
        _ => 0,
    }
}
