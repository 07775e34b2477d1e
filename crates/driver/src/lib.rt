// The bench program's store, driven line by line and byte by byte.
//
// `act` does what a line asks for, by the call of that name; a crash writes the pages named into the stable table and
// opens. `Bench` keeps what lasts from byte to byte: `step` takes one byte, `finish` the end of the input. Each contract
// is one equation with specs/Acts.antt, which says a line's effect in the rules' words: what is to be printed, session
// and every byte of both tables.
//
// Below stand `lines`, which reads, `words`, for what is to be printed, `numbers`, for the number of an answer, `head`,
// for a page of a table, and the calls insert, lookup, sync and open.

#![tactic(auto)]

ghost use Rattle.std.specs.Prelude.{◌≡◌, ◌<◌, length};
ghost use Rattle.rules.specs.Table.{page_at, set_page};
ghost use Rattle.rules.specs.Crash.{mix, crashed};
ghost use Rattle.rules.proofs.Bytes.Mixes.{chosen};
ghost use Rattle.driver.specs.Acts.{bench_pages, bench_bytes, looked_reply, acted, turn_left, fresh, closed, stepped, finished, step_left};

use lines::{Line, Reader};
use rules::{Looked, PAGE, Session};
use words::Reply;

// The bench program's store has five pages.
const PAGES: usize = 5;

// A table of it, in bytes.
pub const BYTES: usize = PAGES * PAGE;

const NEWLINE: u8 = b'\n';

// What a line leaves beside the tables: what is to be printed, and the session. `Turn` and `Step` are two structs,
// since the theorems read them by these names.
#[derive(Clone, Copy)]
pub struct Turn {
    pub reply: Reply,
    pub session: Session,
}

// Between two bytes: where the reader is, whether its line has begun, and the session. No `Option`: a caller may hand in
// a reader within a line that has not begun, and the next byte goes on from there.
#[derive(Clone, Copy)]
pub struct Bench {
    pub reader: Reader,
    pub begun: bool,
    pub session: Session,
}

// What a byte leaves beside the tables.
#[derive(Clone, Copy)]
pub struct Step {
    pub reply: Reply,
    pub bench: Bench,
}

// After a successful find the record is printed behind the word.
fn looked_reply(answer: Looked) -> Reply
    ensures { result ≡ looked_reply answer }
{
    if let Ok(x) = answer {
        return Reply::Record(x);
    }
    Reply::Answer(numbers::number(answer))
}

// The pages of the stable table as a crash leaves them: those that are written become the working ones.
fn write_pages(working: &[u8], stable: &mut [u8], written: [bool; PAGES])
    requires { (length working.now ≡ bench_bytes) × (length stable.old ≡ bench_bytes) }
    ensures { stable.new ≡ mix written working.now stable.old }
{
    for i in 0..PAGES {
        let is_written = written[i];
        if is_written {
            let from = i * PAGE;
            stable[from..from + PAGE].copy_from_slice(head::page_at(working, i));
        }
    }
}

// A crash, and the opening after it. After an opening that was refused no page is written.
fn crash_line(
    working: &mut [u8],
    stable: &mut [u8],
    session: Session,
    written: [bool; PAGES],
) -> Turn
    requires { (length working.old ≡ bench_bytes) × (length stable.old ≡ bench_bytes) }
    ensures { turn_left result working.new stable.new
        ≡ acted (Line.Crash written) session working.old stable.old }
{
    if session.n != 0 {
        write_pages(working, stable, written);
    }
    let left = opening::open(working, stable);
    Turn {
        reply: Reply::Answer(numbers::number(left.answer)),
        session: left.session,
    }
}

// One line's effect: the call that it asks for. Tables and session go apart, as every call takes them.
pub fn act(working: &mut [u8], stable: &mut [u8], session: Session, line: Line) -> Turn
    requires { (length working.old ≡ bench_bytes) × (length stable.old ≡ bench_bytes) }
    ensures { turn_left result working.new stable.new
        ≡ acted line session working.old stable.old }
{
    match line {
        Line::Insert(model, serial, issue, x) => {
            let left = insert::insert(working, stable, session, model, serial, issue, x);
            Turn {
                reply: Reply::Answer(numbers::number(left.answer)),
                session: left.session,
            }
        }
        Line::Find(model, serial, issue) => {
            let left = lookup::lookup(working, stable, session, model, serial, issue);
            Turn {
                reply: looked_reply(left.answer),
                session: left.session,
            }
        }
        Line::Sync => {
            let left = sync::sync(working, stable, session);
            Turn {
                reply: Reply::Answer(numbers::number(left.answer)),
                session: left.session,
            }
        }
        Line::Crash(written) => crash_line(working, stable, session, written),
        Line::Other => Turn {
            reply: Reply::Line,
            session,
        },
    }
}

impl Bench {
    pub fn new(session: Session) -> Self
        ensures { result ≡ fresh session }
    {
        Bench {
            reader: Reader::new(),
            begun: false,
            session,
        }
    }

    // The line read so far is at its end.
    fn close(self, working: &mut [u8], stable: &mut [u8]) -> Step
        requires { (length working.old ≡ bench_bytes) × (length stable.old ≡ bench_bytes) }
        ensures { step_left result working.new stable.new
            ≡ closed self working.old stable.old }
    {
        let turn = act(working, stable, self.session, self.reader.line());
        Step {
            reply: turn.reply,
            bench: Bench::new(turn.session),
        }
    }

    // One byte of the input.
    pub fn step(self, working: &mut [u8], stable: &mut [u8], b: u8) -> Step
        requires { (length working.old ≡ bench_bytes) × (length stable.old ≡ bench_bytes) }
        ensures { step_left result working.new stable.new
            ≡ stepped self b working.old stable.old }
    {
        if b == NEWLINE {
            return self.close(working, stable);
        }
        Step {
            reply: Reply::Silent,
            bench: Bench {
                reader: self.reader.feed(b),
                begun: true,
                session: self.session,
            },
        }
    }

    // The end of the input. A last line without a newline is a line.
    pub fn finish(self, working: &mut [u8], stable: &mut [u8]) -> Step
        requires { (length working.old ≡ bench_bytes) × (length stable.old ≡ bench_bytes) }
        ensures { step_left result working.new stable.new
            ≡ finished self working.old stable.old }
    {
        if self.begun {
            return self.close(working, stable);
        }
        Step {
            reply: Reply::Silent,
            bench: self,
        }
    }
}
