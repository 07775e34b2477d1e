// Format: a stable table with one empty leaf.
//
// `format` answers 0 or 1 and asks nothing; answer and stable bytes are those of the rules' `format`. A refused format
// changes no byte.
//
// Below stand `fields`, `rules` and `tables`.

#![tactic(auto)]

ghost use Rattle.std.specs.Prelude.{◌≡◌, ◌≤◌, length};
ghost use Rattle.rules.specs.Format;
ghost use Rattle.rules.specs.Page.{blank, build_bytes};
ghost use Rattle.format.specs.Formats.{formatting, named, first_leaf};

use rules::{
    AT_BIRTH, AT_BUILT, AT_HIGH, AT_KIND, AT_N, AT_NUMBER, AT_ROOT, AT_ROOT_BIRTH,
    AT_ROOT_PREVIOUS, AT_TOUCHED, Formatted, LAST_KEY, LEAF, LengthError, PAGE, ZERO,
};

// Where page 1 ends.
const PAGE_END: usize = 2 * PAGE;

// What stands in page 1 as birth, built and touched; the first opening takes the number behind it.
const FIRST: u32 = 1;

const NUMBER: u32 = 2;

// Page 0: kind 9, n, number 2, root 1 with previous 0 and birth 1.
fn name_root(stable: &mut [u8], n: u16)
    requires { 16 ≤ length stable.old }
    ensures { stable.new ≡ named n stable.old }
{
    fields::put16(stable, AT_KIND, ZERO);
    fields::put16(stable, AT_N, n);
    fields::put32(stable, AT_NUMBER, NUMBER);
    fields::put16(stable, AT_ROOT, 1);
    fields::put16(stable, AT_ROOT_PREVIOUS, 0);
    fields::put32(stable, AT_ROOT_BIRTH, FIRST);
}

// A page of zeros becomes an empty leaf over every key: no entry, low 0, birth, built and touched 1.
fn empty_leaf(page: &mut [u8])
    requires { page.old ≡ blank }
    ensures { page.new ≡ build_bytes first_leaf }
{
    fields::put16(page, AT_KIND, LEAF);
    fields::put32(page, AT_BIRTH, FIRST);
    fields::put32(page, AT_BUILT, FIRST);
    fields::put32(page, AT_TOUCHED, FIRST);
    fields::put64(page, AT_HIGH, LAST_KEY);
}

pub fn format(working: &[u8], stable: &mut [u8]) -> Formatted
    ensures { formatting result stable.new ≡ Format.format working.now stable.old }
{
    if !tables::good_lengths(working, stable) {
        return Err(LengthError::Length);
    }
    let n = (stable.len() / PAGE) as u16;
    tables::clear(stable);
    name_root(stable, n);
    empty_leaf(&mut stable[PAGE..PAGE_END]);
    Ok(())
}
