// Entering one place: the page that fits it, or the page mended from its previous page, or nothing.
//
// `enter` leaves the table as the rules' `enter` leaves it and answers with the header of the page that the rules find
// there. The previous page is looked at only where the child is lost; a child that stands above on the way is damaged
// before anything of it is read.
//
// Below stand `sound`, which tests pages, `build`, which mends them, and `head`, which reads them.

#![tactic(auto)]

ghost use Rattle.std.specs.Prelude.{◌≡◌, ◌*◌, ◌<◌, length};
ghost use Rattle.rules.specs.Layout.{page_size};
ghost use Rattle.rules.specs.Test.{mem};
ghost use Rattle.rules.specs.Enter.{mend, enter};
ghost use Rattle.rules.specs.Report.{reason_at};
ghost use Rattle.enter.specs.Entering.{above_of, entering, told};

use head::{Head, Table, page_at, read_head};
use rules::{Place, Reason};

// The pages above on the way from the root, at most two; 0, which is never a child, stands for none, as in a page: so
// the test of a child against them is two comparisons.
#[derive(Clone, Copy)]
pub struct Above {
    pub parent: u16,
    pub top: u16,
}

// The page entered, by its header, with the reason why it was mended, or none.
#[derive(Clone, Copy)]
pub struct Entered {
    pub head: Head,
    pub reason: Option<Reason>,
}

fn stands_above(above: Above, child: u16) -> bool
    ensures { result ≡ mem child (above_of above) }
{
    if child == above.parent {
        return true;
    }
    child == above.top
}

// A child that doesn't fit is lost: it is mended where its previous page allows it.
fn mend(t: &mut [u8], n: usize, c: u32, e: Place, reason: Option<Reason>) -> Option<Entered>
    requires { (length t.old ≡ n * page_size) × (e.child < n) }
    ensures { entering t.new result ≡ told reason (mend n c t.old e) }
{
    if !sound::mendable_at(Table { bytes: t, pages: n }, e) {
        return None;
    }
    build::build_mended(t, e, c);
    let head = read_head(page_at(t, e.child as usize));
    Some(Entered { head, reason })
}

// The page found at a place, or none: then the place is damaged.
pub fn enter(t: &mut [u8], n: usize, c: u32, above: Above, e: Place) -> Option<Entered>
    requires { (length t.old ≡ n * page_size) × (e.child < n) }
    ensures { entering t.new result
        ≡ told (reason_at n t.old e) (enter n c (above_of above) t.old e) }
{
    if stands_above(above, e.child) {
        return None;
    }
    let reason = sound::unfit_at(Table { bytes: t, pages: n }, e);
    if reason.is_none() {
        let head = read_head(page_at(t, e.child as usize));
        return Some(Entered { head, reason });
    }
    mend(t, n, c, e, reason)
}
