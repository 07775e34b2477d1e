// The dry walk: what a walk over a range will answer, known before a byte is written.
//
// It reads the table as it lies and keeps the numbers that the walk would mend. A number it has mended holds a place that
// was passed, so a child of that number is lost and a previous page of that number is no help; every other page still
// stands as it lies. So one mark for each page does instead of a copy of the table. proofs/Decides says it of the rules:
// the dry walk is whole exactly if the walk is, and counts what the walk finds.
//
// The walk is one loop over `next_leaf`, which goes on by `next`, one place of the way at a time: the way keeps the
// entries left of the root and of the page under it, so no place is entered twice. A step passes a place, goes on to its
// entries, or comes to a leaf: the page that shows it and the place that asks for it. The first damaged place ends the
// walk.
//
// Below stand `seen`, which finds the entries of a page that lie in a range, `sound`, which tests a page against a
// place, `head`, which reads headers and entries, and `rules`.

#![tactic(auto)]

mod tally;

ghost use Rattle.std.specs.Prelude.{◌≡◌, true, ◌<◌, [], ◌∷◌, Some, Ok};
ghost use Rattle.rules.specs.Test.{mem, between};
ghost use Rattle.rules.specs.Table.{fit0};
ghost use Rattle.seen.specs.Run.{Lies};
ghost use Rattle.dry.specs.Walk.{keeps, helps, none_marked, dry_of};
ghost use Rattle.dry.specs.Source.{source, marked_by};
ghost use Rattle.dry.specs.Cursor.{in_reach, meeting, meet_of, at_root, under_root, with_lower, due_lower, due_upper, due_root, due_of, under_of, settle_of, stepping, step_of, reaching, leaf_of, Leads, Sure};

use head::{Table, read_head, root_place};
use rules::{Asked, LAST_KEY, LEAF, MOST, Place};
use seen::{Run, mark, marked, place_in, rest_of, run_in};
use sound::{fits_at, mendable_at};
use tally::tally_leaf;

// What a dry walk has found: how many certificates there are, and which numbers it would have mended.
#[derive(Clone, Copy)]
pub struct Dry {
    pub count: usize,
    pub mended: [bool; MOST],
}

impl Dry {
    // Whether the walk would mend nothing: then it leaves the table as it lies, and every place that it enters fits.
    pub fn mends_nothing(&self) -> bool
        ensures { result ≡ none_marked self.now.mended }
    {
        // No early end: each whole list asks this of all the marks, of which none is set most often.
        !self.mended.iter().fold(false, |some, m| some | *m)
    }
}

// The keys from low to high.
#[derive(Clone, Copy)]
pub struct KeyRange {
    pub low: u64,
    pub high: u64,
}

impl KeyRange {
    pub fn holds(self, key: u64) -> bool
        ensures { result ≡ between self.low self.high key }
    {
        if key < self.low {
            return false;
        }
        key <= self.high
    }
}

// The walk met a damaged place.
#[derive(Clone, Copy)]
pub struct Damaged;

// What a place comes to: it is passed, or it shows a leaf or entries.
#[derive(Clone, Copy)]
pub enum Met {
    Passed,
    Leaf(u16),
    Entries(Run),
}

// The way of a walk: the entries left of the root and of the page under it that was entered last, the numbers of the
// two, and where the lower one's range ends; the root's is every key. Before the first step the root itself is left: a
// flag, and no variant of its own, since a caller may have entries walked before the root.
#[derive(Clone, Copy, Default)]
pub struct Cursor {
    pub fresh: bool,
    pub root: u16,
    pub upper: Run,
    pub parent: u16,
    pub lower: Run,
    pub high: u64,
}

// A leaf that a walk has come to: the page that shows it, the place that asks for it, and the way behind it.
#[derive(Clone, Copy)]
pub struct LeafAt {
    pub page: u16,
    pub place: Place,
    pub after: Cursor,
}

// A place that is next: its level, counted as kinds are, the root's 3; the pages above it; and the way behind it.
#[derive(Clone, Copy)]
pub struct Spot {
    // A number, since the rules count it down.
    pub level: usize,
    pub parent: u16,
    pub top: u16,
    pub place: Place,
    pub rest: Cursor,
}

// What a step comes to: the walk goes on, it has come to a leaf, or it is at its end.
#[derive(Clone, Copy)]
pub enum Step {
    On(Cursor),
    Leaf(LeafAt),
    End,
}

// Whether the child of a place fits it still.
fn keeps_child(table: Table<'_>, marks: &[bool], e: Place) -> bool
    ensures { result ≡ keeps table.entry.pages table.entry.bytes.now marks.now e }
{
    if marked(marks, e.child as usize) {
        return false;
    }
    fits_at(table, e)
}

// Whether the previous page of a place can help it still.
fn helps_child(table: Table<'_>, marks: &[bool], e: Place) -> bool
    ensures { result ≡ helps table.entry.pages table.entry.bytes.now marks.now e }
{
    if marked(marks, e.previous as usize) {
        return false;
    }
    mendable_at(table, e)
}

// A child that stands above on the way is damaged; 0, which is never a child, stands for none. `enter`, on which this
// crate does not stand, asks the same of its own two numbers.
fn stands_above(s: Spot) -> bool
    ensures { result ≡ mem s.place.child (s.parent ∷ s.top ∷ []) }
{
    if s.place.child == s.parent {
        return true;
    }
    s.place.child == s.top
}

// The page that shows a place in the course of a walk: the child, or the previous page that it would be mended from;
// none of a damaged place. Where it is known to be the child, nothing is tested.
fn source_at<const KNOWN: bool>(table: Table<'_>, s: Spot, marks: &[bool]) -> Option<u16>
    requires { KNOWN ≡ true → source table.pages (s.parent ∷ s.top ∷ []) table.bytes.now marks.now s.place ≡ Some s.place.child }
    ensures { result ≡ source table.entry.pages (s.parent ∷ s.top ∷ []) table.entry.bytes.now marks.now s.place }
{
    let e = s.place;
    if KNOWN {
        return Some(e.child);
    }
    if stands_above(s) {
        return None;
    }
    if keeps_child(table, marks, e) {
        return Some(e.child);
    }
    if helps_child(table, marks, e) {
        return Some(e.previous);
    }
    None
}

// Whether a place's range meets the asked one.
fn in_reach(a: Asked, e: Place) -> bool
    ensures { result ≡ in_reach a e }
{
    if e.low > a.high {
        return false;
    }
    a.low <= e.high
}

// A place was entered by its source: a child that is not its own source is mended, and marked.
fn mark_by(marks: &mut [bool], page: u16, e: Place)
    ensures { marks.new ≡ marked_by page e marks.old }
{
    if page == e.child {
        return;
    }
    mark(marks, e.child as usize);
}

// One place: it is passed, it shows a leaf or entries, or it is damaged.
fn meet<const KNOWN: bool>(
    table: Table<'_>,
    a: Asked,
    s: Spot,
    marks: &mut [bool],
) -> Result<Met, Damaged>
    requires { KNOWN ≡ true → in_reach a s.place ≡ true → source table.pages (s.parent ∷ s.top ∷ []) table.bytes.now marks.old s.place ≡ Some s.place.child }
    ensures { meeting result marks.new ≡ meet_of table.entry.pages a (s.parent ∷ s.top ∷ []) table.entry.bytes.now marks.old s.place }
{
    let e = s.place;
    if !in_reach(a, e) {
        return Ok(Met::Passed);
    }
    let Some(page) = source_at::<KNOWN>(table, s, marks) else {
        return Err(Damaged);
    };
    mark_by(marks, page, e);
    let i = page as usize;
    let head = read_head(table.page(i));
    if head.kind == LEAF {
        return Ok(Met::Leaf(page));
    }
    Ok(Met::Entries(run_in(table.bytes, i, e.low, e.high)))
}

// Before the first step the root is left.
pub fn at_root() -> Cursor
    ensures { result ≡ at_root }
{
    Cursor {
        fresh: true,
        ..Cursor::default()
    }
}

// The way to the entries of the root.
fn under_root(root: u16, run: Run) -> Cursor
    ensures { result ≡ under_root root run }
{
    Cursor {
        root,
        upper: run,
        ..Cursor::default()
    }
}

fn due_lower(table: Table<'_>, c: Cursor) -> Spot
    requires { Lies table.pages c.lower × (0 < c.lower.left) }
    ensures { result ≡ due_lower table.entry.bytes.now c }
{
    Spot {
        level: 1,
        parent: c.parent,
        top: c.root,
        place: place_in(table.bytes, c.lower, c.high),
        rest: Cursor {
            lower: rest_of(c.lower),
            ..c
        },
    }
}

fn due_upper(table: Table<'_>, c: Cursor) -> Spot
    requires { Lies table.pages c.upper × (0 < c.upper.left) }
    ensures { result ≡ due_upper table.entry.bytes.now c }
{
    Spot {
        level: 2,
        parent: c.root,
        top: 0,
        place: place_in(table.bytes, c.upper, LAST_KEY),
        rest: Cursor {
            upper: rest_of(c.upper),
            ..c
        },
    }
}

fn due_root(table: Table<'_>) -> Spot
    requires { 0 < table.pages }
    ensures { result ≡ due_root table.entry.bytes.now }
{
    Spot {
        level: 3,
        parent: 0,
        top: 0,
        place: root_place(table.bytes),
        rest: Cursor::default(),
    }
}

// The place that is next: of the lowest page that has entries left.
fn next_spot(table: Table<'_>, c: Cursor) -> Option<Spot>
    requires { Leads table.pages table.bytes.now c }
    ensures { result ≡ due_of table.entry.bytes.now c }
{
    if c.lower.left != 0 {
        return Some(due_lower(table, c));
    }
    if c.upper.left != 0 {
        return Some(due_upper(table, c));
    }
    if c.fresh {
        return Some(due_root(table));
    }
    None
}

// Entries of a page that was entered are the next of the way. No page stands below the third.
fn under(s: Spot, run: Run) -> Result<Step, Damaged>
    ensures { result ≡ under_of s run }
{
    if s.level == 3 {
        return Ok(Step::On(under_root(s.place.child, run)));
    }
    if s.level == 2 {
        let way = Cursor {
            parent: s.place.child,
            lower: run,
            high: s.place.high,
            ..s.rest
        };
        return Ok(Step::On(way));
    }
    if run.left == 0 {
        return Ok(Step::On(s.rest));
    }
    Err(Damaged)
}

fn settle(s: Spot, met: Met) -> Result<Step, Damaged>
    ensures { result ≡ settle_of s met }
{
    let place = s.place;
    let after = s.rest;
    match met {
        Met::Passed => Ok(Step::On(after)),
        Met::Leaf(page) => Ok(Step::Leaf(LeafAt { page, place, after })),
        Met::Entries(run) => under(s, run),
    }
}

// One step: the next place of the way. Where it is known that every place ahead fits, no page is tested again.
pub fn next<const KNOWN: bool>(
    table: Table<'_>,
    a: Asked,
    c: Cursor,
    marks: &mut [bool],
) -> Result<Step, Damaged>
    requires { Leads table.pages table.bytes.now c × (KNOWN ≡ true → Sure table.pages a table.bytes.now c marks.old) }
    ensures { stepping result marks.new ≡ step_of table.entry.pages a table.entry.bytes.now c marks.old }
{
    let Some(s) = next_spot(table, c) else {
        return Ok(Step::End);
    };
    let met = meet::<KNOWN>(table, a, s, marks)?;
    settle(s, met)
}

// Steps up to the next leaf.
fn leaf_by<const KNOWN: bool>(
    table: Table<'_>,
    a: Asked,
    c: Cursor,
    marks: &mut [bool],
) -> Result<Option<LeafAt>, Damaged>
    requires { Leads table.pages table.bytes.now c × (KNOWN ≡ true → Sure table.pages a table.bytes.now c marks.old) }
    ensures { reaching result marks.new ≡ leaf_of table.entry.pages a table.entry.bytes.now c marks.old }
{
    let mut at = c;
    loop {
        match next::<KNOWN>(table, a, at, marks)? {
            Step::On(on) => {
                at = on;
            }
            Step::Leaf(leaf) => {
                return Ok(Some(leaf));
            }
            Step::End => {
                return Ok(None);
            }
        }
    }
}

// The leaf that the walk comes to next; none at its end.
pub fn next_leaf(
    table: Table<'_>,
    a: Asked,
    c: Cursor,
    marks: &mut [bool],
) -> Result<Option<LeafAt>, Damaged>
    requires { Leads table.pages table.bytes.now c }
    ensures { reaching result marks.new ≡ leaf_of table.entry.pages a table.entry.bytes.now c marks.old }
{
    leaf_by::<false>(table, a, c, marks)
}

// The same where it is known that every place ahead fits: no page is tested again, and none is damaged.
pub fn next_known(table: Table<'_>, a: Asked, c: Cursor, marks: &mut [bool]) -> Option<LeafAt>
    requires { Leads table.pages table.bytes.now c × Sure table.pages a table.bytes.now c marks.old }
    ensures { reaching (Ok result) marks.new ≡ leaf_of table.entry.pages a table.entry.bytes.now c marks.old }
{
    let Ok(leaf) = leaf_by::<true>(table, a, c, marks) else {
        return None;
    };
    leaf
}

// The whole walk, from the root on; where it meets a damaged place, what it found before that.
pub fn dry_of(table: Table<'_>, a: Asked) -> Result<Dry, Dry>
    requires { fit0 table.pages table.bytes.now ≡ true }
    ensures { result ≡ dry_of table.entry.pages a table.entry.bytes.now }
{
    let mut at = at_root();
    let mut count = 0;
    let mut mended = [false; MOST];
    // No index: each leaf adds what it has, and the walk ends when there is no more room.
    while count < a.room {
        let Ok(next) = next_leaf(table, a, at, &mut mended) else {
            return Err(Dry { count, mended });
        };
        let Some(leaf) = next else {
            return Ok(Dry { count, mended });
        };
        let page = leaf.page as usize;
        let head = read_head(table.page(page));
        count = tally_leaf(table, page, head, a, leaf.place, count);
        at = leaf.after;
    }
    Ok(Dry { count, mended })
}
