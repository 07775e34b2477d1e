// The way of an insert split from the top down, and the entry put in its leaf: the rules' `split` and what follows it.
//
// `apply` leaves the table that the rules' `insert_done` leaves, and `marked` the session. The two go apart, and the
// session is changed once, at the end: a session that goes through the splits by value would lie on the stack at each
// step. A page that is full is split after the page above it, so that one has room; the page that then stands at the
// end of the way has room for the new entry. What is asked for here, that the way stands, that its leaf has not the key
// and that pages enough are free, `plan` and the walk before it have found out; specs/ says it in the rules' words. The
// laws in proofs/ hold for any table and any session.
//
// Below stand `split`, which splits one page, and `edit`, which puts the entry.

#![tactic(auto)]

ghost use Rattle.std.specs.Prelude.{◌≡◌, List, ℕ, ◌+◌, ◌*◌, ◌≤◌, ◌<◌, length};
ghost use Rattle.rules.specs.Layout.{top_kind};
ghost use Rattle.rules.specs.Insert.{making, split, insert_done};
ghost use Rattle.rules.specs.declared.Session.{Session};
ghost use Rattle.plan.specs.Plan.{heads_of, splits_by};
ghost use Rattle.apply.specs.Leads.{steps_in, twins_at, Starts, start_of, done};
ghost use Rattle.apply.specs.Leads.{marks_for, root_marked, marks_by, Numbered, ReadyPages, ReadySession};

use rules::Session;
use split::Twins;
use way::Step;

// The numbers of a step's two halves, by the step's number.
fn twins(pages: &[u16], i: usize) -> Twins
    requires { (i < top_kind) × (2 * i + 2 ≤ length pages.now) }
    ensures { result ≡ twins_at pages.now i }
{
    Twins {
        lower: pages[2 * i],
        upper: pages[2 * i + 1],
    }
}

// What stands above the pages that split: a new root over them all, or the first page from the leaf up that has room.
fn start(table: &mut [u8], c: u32, way: &[Step], pages: &[u16], many: usize) -> u16
    requires { Starts table.old way.now pages.now many }
    ensures { (s : Session) → making table.new (root_marked way.now pages.now many s) result
        ≡ start_of c table.old way.now pages.now many s }
{
    if many == way.len() {
        let new = pages[2 * many];
        split::grow(table, c, way[many - 1], new);
        return new;
    }
    way[many].place.child
}

// The full pages from the leaf up are halved, the highest first.
fn split_way(table: &mut [u8], c: u32, key: u64, way: &[Step], pages: &[u16]) -> u16
    requires { ReadyPages c key table.old way.now pages.now }
    ensures { (y : ReadyPages c key table.old way.now pages.now)
        → making table.new (marks_by way.now pages.now (splits_by (heads_of way.now)) y.session) result
        ≡ split y.session.c key (steps_in table.old way.now) pages.now (making table.old y.session 0) }
{
    let many = plan::splits(way);
    let mut at = start(table, c, way, pages, many);
    for i in (0..many).rev() {
        at = split::halve(table, c, key, way[i], twins(pages, i), at);
    }
    at
}

// The entry into a leaf that has room, as most have; else first the splits, then the entry in the page that stands at
// the end of the way.
pub fn apply(table: &mut [u8], c: u32, key: u64, value: u32, way: &[Step], chosen: &[u16])
    requires { ReadyPages c key table.old way.now chosen.now }
    ensures { (y : ReadyPages c key table.old way.now chosen.now) (stable : List ℕ)
        → done (marks_by way.now chosen.now (splits_by (heads_of way.now)) y.session) table.new stable
        ≡ insert_done key value y.session (steps_in table.old way.now) table.old stable }
{
    let leaf = way[0];
    if !plan::is_full(leaf.head) {
        edit::put_cert(table, leaf.place.child as usize, key, value, c);
        return;
    }
    let at = split_way(table, c, key, way, chosen);
    edit::put_cert(table, at as usize, key, value, c);
}

// The marks of the pages that split and of their halves, the highest first.
fn mark_halves(session: Session, way: &[Step], pages: &[u16], many: usize) -> Session
    requires { Numbered way.now pages.now many }
    ensures { result ≡ marks_for session.c way.now pages.now many session }
{
    let c = session.c;
    let mut left = session;
    for i in (0..many).rev() {
        left = split::mark(left, c, way[i], twins(pages, i));
    }
    left
}

// The session of an insert that is done.
pub fn marked(session: Session, way: &[Step], chosen: &[u16]) -> Session
    requires { ReadySession session way.now chosen.now }
    ensures { result ≡ marks_by way.now chosen.now (splits_by (heads_of way.now)) session }
{
    let many = plan::splits(way);
    if many == way.len() {
        let rooted = session.take(chosen[2 * many] as usize);
        return mark_halves(rooted, way, chosen, many);
    }
    mark_halves(session, way, chosen, many)
}
