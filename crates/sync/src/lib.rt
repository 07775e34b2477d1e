// Sync: the working table becomes stable, with a number of its own.
//
// `sync` answers 0, 1 or 8 and asks nothing; answer, session and the bytes of both tables are those of the rules' `sync`.
// A refused sync changes nothing. The stable table is written once, as a whole.
//
// Below stand `fields`, `rules`, `tables` and `marks`.

#![tactic(auto)]

ghost use Rattle.std.specs.Prelude.{◌≡◌};
ghost use Rattle.rules.specs.Sync;
ghost use Rattle.rules.specs.Handing.{left};

use rules::{AT_NUMBER, LAST_NUMBER, Session, SyncError, Syncing};

pub fn sync(working: &mut [u8], stable: &mut [u8], session: Session) -> Syncing
    ensures { left result working.new stable.new ≡ Sync.sync working.old stable.old session }
{
    if !tables::lengths_for(session.n, working, stable) {
        return Syncing {
            answer: Err(SyncError::Length),
            session,
        };
    }
    let c = session.c;
    if c > LAST_NUMBER {
        return Syncing {
            answer: Err(SyncError::Spent),
            session,
        };
    }
    fields::put32(working, AT_NUMBER, c + 2);
    tables::copy(stable, working);
    Syncing {
        answer: Ok(()),
        session: marks::turn(session),
    }
}
