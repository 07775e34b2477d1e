// Open: a new session over a stable table that passes every test.
//
// `open` answers 0, 1, 3 or 8 and asks nothing; answer, session and the bytes of both tables are those of the rules'
// `opening`. A refused opening changes no byte and hands out the session of nobody. The tree is read as it stands, and
// the stable table gets one page write: its number.
//
// Below stand `tables`, `head`, `seen`, which walks the tree, `marks`, which makes the session, and `rules`.

#![tactic(auto)]

ghost use Rattle.std.specs.Prelude.{◌≡◌, ◌≤◌};
ghost use Rattle.rules.specs.Layout.{most_pages};
ghost use Rattle.rules.specs.Open.{opening};
ghost use Rattle.marks.specs.Opened.{opened_by};
ghost use Rattle.rules.specs.Handing.{left};
ghost use Rattle.opening.specs.Opens.{refused_with};

use head::Table;
use rules::{LAST_NUMBER, OpenError, Opened, Opening, PAGE, Session};
use seen::Seen;

// What a refused opening hands back.
fn refused(answer: Opened) -> Opening
    ensures { result ≡ refused_with answer }
{
    Opening {
        answer,
        session: marks::nobody(),
    }
}

// The session of an opening, from what the walk has noted.
fn session_of(n: usize, number: u32, notes: Seen) -> Session
    requires { n ≤ most_pages }
    ensures { result ≡ opened_by n number notes.total notes.children notes.spared }
{
    let children = notes.children;
    let spared = notes.spared;
    marks::opened(n as u16, number, notes.total, children, spared)
}

pub fn open(working: &mut [u8], stable: &mut [u8]) -> Opening
    ensures { left result working.new stable.new ≡ opening working.old stable.old }
{
    if !tables::good_lengths(working, stable) {
        return refused(Err(OpenError::Length));
    }
    let n = stable.len() / PAGE;
    if !head::fit0(stable, n) {
        return refused(Err(OpenError::Damaged));
    }
    let table = Table {
        bytes: stable,
        pages: n,
    };
    let notes = seen::walk(table);
    if !seen::good(notes) {
        return refused(Err(OpenError::Damaged));
    }
    let number = head::number(stable);
    if number > LAST_NUMBER {
        return refused(Err(OpenError::Spent));
    }
    head::set_number(stable, number + 1);
    tables::copy(working, stable);
    Opening {
        answer: Ok(()),
        session: session_of(n, number, notes),
    }
}
