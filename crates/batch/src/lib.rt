// A batch: a delivery in one call.
//
// `batch` asks nothing. It tests lengths once; then each item, in list order, is inserted into what the items before it
// left, and gets its answer's number, also after an item that was refused. Answer, session, report, every byte lent and
// every item are those of the rules' `batch`.
//
// `batch` is no more than a loop over `turn`, which takes one item by value, so its invariant speaks of turns alone.
//
// Below stand `tables`, which tests lengths, `insert`, and `numbers`.

#![tactic(auto)]

ghost use Rattle.std.specs.Prelude.{◌≡◌};
ghost use Rattle.rules.specs.Batch;
ghost use Rattle.batch.specs.Turns.{running, turning, begun, tried_of, turn_of, leaving};

use rules::{Batching, Item, LengthError, Report, Session};

// An item with its answer, and what the call would hand back now.
#[derive(Clone, Copy)]
pub struct Turned {
    pub item: Item,
    pub made: Batching,
}

// Before the first item. The working table is only measured; it is lent as it is lent to each turn.
fn begin(working: &mut [u8], stable: &[u8], session: Session) -> Batching
    ensures { running result working.new ≡ begun working.old stable.now session }
{
    let report = Report::nothing();
    if !tables::lengths_for(session.n, working, stable) {
        return Batching {
            answer: Err(LengthError::Length),
            report,
            session,
        };
    }
    Batching {
        answer: Ok(()),
        report,
        session,
    }
}

// An item is inserted, and its answer filled in.
fn tried(working: &mut [u8], stable: &[u8], made: Batching, item: Item) -> Turned
    ensures { turning result working.new
        ≡ tried_of stable.now (running made working.old) item }
{
    let done = insert::insert(
        working,
        stable,
        made.session,
        item.model,
        item.serial,
        item.issue,
        item.value,
    );
    Turned {
        item: Item {
            answer: numbers::number(done.answer),
            ..item
        },
        made: Batching {
            answer: Ok(()),
            report: made.report.join(done.report),
            session: done.session,
        },
    }
}

// One item's turn. A batch that is refused leaves it as it is.
fn turn(working: &mut [u8], stable: &[u8], made: Batching, item: Item) -> Turned
    ensures { turning result working.new
        ≡ turn_of stable.now (running made working.old) item }
{
    match made.answer {
        Ok(()) => tried(working, stable, made, item),
        Err(_) => Turned { item, made },
    }
}

pub fn batch(working: &mut [u8], stable: &[u8], session: Session, items: &mut [Item]) -> Batching
    ensures { leaving result working.new stable.now items.new
        ≡ Batch.batch working.old stable.now session items.old }
{
    let mut made = begin(working, stable, session);
    for i in 0..items.len() {
        let turned = turn(working, stable, made, items[i]);
        items[i] = turned.item;
        made = turned.made;
    }
    made
}
