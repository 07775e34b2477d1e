// What an insert has to do, decided before anything is written.
//
// `plan` looks at the way that was walked, at the counter and at whether the key was found, and answers in document
// 01's order: present, sync first, full, or go on. `choose` has the numbers of the new pages. Nothing changes here. Full
// pages split from the leaf up as far as one stands above the other, so their number says all.
//
// Below stand `way`, the pages entered, and `marks`, which chooses the lowest free numbers.

#![tactic(auto)]

ghost use Rattle.std.specs.Prelude.{◌≡◌, ◌≤◌, ◌<◌, length};
ghost use Rattle.rules.specs.Layout.{most_pages, top_kind};
ghost use Rattle.plan.specs.Plan.{heads_of, full_by, splits_by, late_by, too_soon_by, numbers_of, need_by, stuck_by, chosen_by, Planning, plan_of};

use few::Few;
use head::Head;
use marks::NEW;
use rules::{INNER_ROOM, InsertError, Inserted, LEAF, LEAF_ROOM, LEVELS, Session, TOP};
use way::Step;

// A page that has no room for one entry more.
pub fn is_full(head: Head) -> bool
    ensures { result ≡ full_by head }
{
    if head.kind == LEAF {
        return head.count >= LEAF_ROOM;
    }
    head.count >= INNER_ROOM
}

// How many pages split: the full ones from the leaf up.
pub fn splits(way: &[Step]) -> usize
    ensures { result ≡ splits_by (heads_of way.now) }
{
    way.iter().take_while(|step| is_full(step.head)).count()
}

// An inner page that must not split before the next sync.
fn is_late(c: u32, head: Head) -> bool
    ensures { result ≡ late_by c head }
{
    head.kind != LEAF && head.touched == c
}

// One of the pages that split must not split yet.
fn too_soon(c: u32, splitting: &[Step]) -> bool
    ensures { result ≡ too_soon_by c (heads_of splitting.now) }
{
    splitting.iter().any(|step| is_late(c, step.head))
}

// Every page of the way splits, and the root has the highest kind.
fn is_stuck(way: &[Step], splits: usize) -> bool
    requires { 1 ≤ length way.now }
    ensures { result ≡ stuck_by way.now splits }
{
    splits == way.len() && way[splits - 1].head.kind == TOP
}

// How many new pages there will be: two for each that splits, and a new root.
fn need(way: &[Step], splits: usize) -> usize
    requires { splits ≤ top_kind }
    ensures { result ≡ need_by (length way.now) splits }
{
    if splits == way.len() {
        return 2 * splits + 1;
    }
    2 * splits
}

// The numbers of the pages that were entered.
fn entered(way: &[Step]) -> Few<u16, LEVELS>
    requires { length way.now ≤ top_kind }
    ensures { result ≡ numbers_of way.now }
{
    let mut numbers = Few::new();
    for step in way {
        numbers.push(step.place.child);
    }
    numbers
}

// The numbers of the new pages, lowest first; fewer than are needed where fewer are free. It is a function of its own in the
// object code, as `way_of` is: in line, its lists would lie on an insert's stack too.
#[inline(never)]
pub fn choose(session: &Session, way: &[Step]) -> Few<u16, NEW>
    requires { (session.now.n ≤ most_pages) × (length way.now ≤ top_kind) }
    ensures { result ≡ chosen_by session.now way.now }
{
    let many = splits(way);
    let entered = entered(way);
    marks::lowest(session, entered.as_slice(), need(way, many))
}

// Refused, or to go on. Of the session the counter is enough: the free pages are known by the numbers chosen. The way
// is what was walked, the numbers are what was chosen.
pub fn plan(c: u32, way: &[Step], present: bool, chosen: &[u16]) -> Inserted
    requires { Planning c way.now chosen.now }
    ensures { (p : Planning c way.now chosen.now) → result ≡ plan_of p.session present p.steps }
{
    if present {
        return Err(InsertError::Present);
    }
    let many = splits(way);
    if too_soon(c, &way[..many]) {
        return Err(InsertError::SyncFirst);
    }
    if is_stuck(way, many) {
        return Err(InsertError::Full);
    }
    if chosen.len() < need(way, many) {
        return Err(InsertError::Full);
    }
    Ok(())
}
