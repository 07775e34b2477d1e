// One page split in two, and a new root over an old one: the rules' `halve` and `grow`.
//
// Each leaves the table and names the page that now stands on the key's way exactly as the rules say, whatever the
// session; `mark` has the session's part of a split, so that no session goes through the work on pages. A split goes
// downwards: the page above has room when a page is halved, because it was split before or was not full. What is asked
// for here, that the page is full and the pages above and new ones are others, the caller knows from the way that it
// walked and from the choice of free numbers.
//
// Below stand `way`, whose steps are split, `build`, which makes the new pages, `edit`, which makes one entry two, `head`,
// which names the new root in page 0, and the session's own moves.

#![tactic(auto)]

ghost use Rattle.std.specs.Prelude.{◌≡◌, ◌<◌};
ghost use Rattle.rules.specs.Layout.{most_pages};
ghost use Rattle.rules.specs.Marks.{taken};
ghost use Rattle.rules.specs.Insert.{making, grow, halve};
ghost use Rattle.rules.specs.declared.Session.{Session};
ghost use Rattle.split.specs.Split.{step_at, heirs_by, previous_by, frees_by, retire_by, root_previous_by, side_of, Halves, Grows};

use edit::Half;
use head::Head;
use rules::{LEAF, Session};
use way::Step;

// The numbers of the pages that the two halves of a page take.
#[derive(Clone, Copy)]
pub struct Twins {
    pub lower: u16,
    pub upper: u16,
}

// A leaf that was built since the last sync or opening is nobody's previous page. The counter is the session's, the
// header the page's: no one value holds both.
fn heirs(c: u32, head: Head) -> bool
    ensures { result ≡ heirs_by c head }
{
    head.kind == LEAF && head.built == c
}

// The previous page of both halves.
fn previous_of(c: u32, step: Step) -> u16
    ensures { result ≡ previous_by c step.place step.head }
{
    if heirs(c, step.head) {
        return step.place.previous;
    }
    step.place.child
}

// A split page that was born and built since the last sync or opening is in no stable table's way.
fn frees(c: u32, head: Head) -> bool
    ensures { result ≡ frees_by c head }
{
    heirs(c, head) && head.birth == c
}

// The split page is free at once, or waits for the next sync. The mark is written in place: by the session's own methods an
// insert would take more than 2 KiB of the stack.
fn retire(session: Session, c: u32, child: u16, head: Head) -> Session
    requires { child < most_pages }
    ensures { result ≡ retire_by c child head session }
{
    let mut left = session;
    if frees(c, head) {
        left.free[child as usize] = true;
    } else {
        left.waiting[child as usize] = true;
    }
    left
}

// The halves' pages are taken, then the split page retires.
pub fn mark(session: Session, c: u32, step: Step, twins: Twins) -> Session
    requires { (step.place.child < most_pages) × (twins.lower < most_pages) × (twins.upper < most_pages) }
    ensures { result ≡ retire_by c step.place.child step.head (taken twins.upper (taken twins.lower session)) }
{
    let lower_taken = session.take(twins.lower as usize);
    let both_taken = lower_taken.take(twins.upper as usize);
    retire(both_taken, c, step.place.child, step.head)
}

// The half whose range holds a key.
fn side(key: u64, middle: u64, twins: Twins) -> u16
    ensures { result ≡ side_of key middle twins.lower twins.upper }
{
    if key < middle {
        return twins.lower;
    }
    twins.upper
}

// A full page becomes two on new pages, its entry in the page above becomes two, and the way goes on in one of them.
pub fn halve(table: &mut [u8], c: u32, key: u64, step: Step, twins: Twins, at: u16) -> u16
    requires { Halves table.old step.place step.head twins.lower twins.upper at }
    ensures { (s : Session)
        → making table.new (retire_by c step.place.child step.head (taken twins.upper (taken twins.lower s))) result
        ≡ halve c key (step_at table.old step.place) twins.lower twins.upper (making table.old s at) }
{
    let from = step.place.child as usize;
    let middle = build::middle_at(table, from);
    build::build_lower(table, twins.lower as usize, from, c);
    build::build_upper(table, twins.upper as usize, from, c);
    let first = Half {
        child: twins.lower,
        low: step.head.low,
    };
    let second = Half {
        child: twins.upper,
        low: middle,
    };
    edit::put_twins(table, at as usize, first, second, previous_of(c, step), c);
    side(key, middle, twins)
}

// Page 0's previous: the old root, or what stands there if that was built since the last sync or opening.
fn root_previous(c: u32, root: Step) -> u16
    ensures { result ≡ root_previous_by c root.place root.head }
{
    if root.head.built == c {
        return root.place.previous;
    }
    root.place.child
}

// A new root, one kind higher, at first over the old root alone, named in page 0.
pub fn grow(table: &mut [u8], c: u32, root: Step, new: u16)
    requires { Grows table.old root.place root.head new }
    ensures { (s : Session) → making table.new (taken new s) new
        ≡ grow c (step_at table.old root.place) new (making table.old s 0) }
{
    build::build_root(table, new as usize, c, root.head.kind + 1, root.place);
    head::set_root(table, new, root_previous(c, root), c);
}
