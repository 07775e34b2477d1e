// Pages changed where they stand: a certificate put into a leaf or taken out, one entry of an inner page made two.
//
// Entries behind the new one move up, the entry is written, count and touched are set. Behind one that is taken out they
// move down, and the place that was the last one's becomes zero. Every other byte stays, those behind the last entry
// too, and so does every other page of the table.
//
// Below stand `fields`, numbers in bytes; `entries`, entries as runs of bytes; `head`, which says what an inner page's
// entry holds; and `rules`, whose `changed` or `removed` every contract here is an equation with.

#![tactic(auto)]

ghost use Rattle.std.specs.Prelude.{◌≡◌, ◌+◌, ◌*◌, ◌-◌, ◌≤◌, length, take, drop};
ghost use Rattle.std.proofs.lemmas.List.Edits.{sets};
ghost use Rattle.fields.specs.Field.{put_at};
ghost use Rattle.rules.specs.Layout.{page_size, common_header};
ghost use Rattle.rules.specs.Page.{view_in, page_in, change_bytes, shrink_bytes, touch};
ghost use Rattle.rules.specs.Table.{read};
ghost use Rattle.rules.specs.Insert.{new_child, put_cert, put_child, changed};
ghost use Rattle.rules.specs.Withdraw.{without_cert, removed};
ghost use Rattle.entries.specs.Spot.{new_cert};
ghost use Rattle.edit.specs.Takes.{TakesCert, HasCert, TakesChild, HasChild, TakesTwins, twins_of};

use entries::Entries;
use head::ChildEntry;
use rules::{AT_COUNT, AT_TOUCHED, CERT, PAGE};

// A half of a page that was split: its number, and the low of its range.
#[derive(Clone, Copy)]
pub struct Half {
    pub child: u16,
    pub low: u64,
}

impl Half {
    // Its entry, for a page born now.
    fn entry(self, previous: u16, c: u32) -> ChildEntry
        ensures { result ≡ record { key = self.low; child = self.child; previous = previous; birth = c } }
    {
        ChildEntry {
            key: self.low,
            child: self.child,
            previous,
            birth: c,
        }
    }
}

// A page that is changed now, with so many entries.
fn stamp(page: &mut [u8], count: u16, c: u32)
    requires { common_header ≤ length page.old }
    ensures { page.new ≡ put_at (put_at page.old 2 2 count) 12 4 c }
{
    fields::put16(page, AT_COUNT, count);
    fields::put32(page, AT_TOUCHED, c);
}

// The entries from a spot on move up by one place. Where that spot's entry was is handed back.
fn make_room(page: &mut [u8], entries: Entries, spot: usize) -> usize
    requires spot_in_bounds { spot ≤ entries.count }
    requires room { entries.header + entries.size * entries.count + entries.size ≤ length page.old }
    ensures place { result ≡ entries.header + entries.size * spot }
    ensures moved { page.new ≡ sets page.old (entries.header + entries.size * spot + entries.size)
        (take (entries.header + entries.size * entries.count - (entries.header + entries.size * spot))
        (drop (entries.header + entries.size * spot) page.old)) }
{
    let at = entries.at(spot);
    let end = entries.at(entries.count);
    entries::copy(page, at + entries.size, at, end - at);
    at
}

fn put_cert_in(page: &mut [u8], key: u64, value: u32, c: u32)
    requires page_len { length page.old ≡ page_size }
    requires takes_cert { TakesCert key (view_in page.old) }
    ensures { page.new ≡ change_bytes (touch c (put_cert (new_cert key value) (view_in page.old)) (page_in page.old)) page.old }
{
    let count = fields::get16(page, AT_COUNT);
    let certs = Entries::certs(count as usize);
    let spot = certs.spot(page, key);
    let at = make_room(page, certs, spot);
    entries::write_cert(page, at, key, value);
    stamp(page, count + 1, c);
}

// The certificate under a key gives up its place: it is the one before the key's spot.
fn remove_cert_in(page: &mut [u8], key: u64, c: u32)
    requires page_len { length page.old ≡ page_size }
    requires has_cert { HasCert key (view_in page.old) }
    ensures { page.new ≡ shrink_bytes (touch c (without_cert key (view_in page.old)) (page_in page.old)) page.old }
{
    let count = fields::get16(page, AT_COUNT);
    let certs = Entries::certs(count as usize);
    let spot = certs.spot(page, key);
    let at = certs.at(spot);
    let end = certs.at(certs.count);
    entries::copy(page, at - CERT, at, end - at);
    entries::clear(page, end - CERT, end);
    stamp(page, count - 1, c);
}

// It differs from `put_cert_in` in the two calls that name the entry: a trait with these two would be longer than both.
fn put_child_in(page: &mut [u8], entry: ChildEntry, c: u32)
    requires page_len { length page.old ≡ page_size }
    requires takes_child { TakesChild entry.key (view_in page.old) }
    ensures { page.new ≡ change_bytes
        (touch c (put_child (new_child entry.birth entry.key entry.child entry.previous) (view_in page.old)) (page_in page.old)) page.old }
{
    let count = fields::get16(page, AT_COUNT);
    let children = Entries::children(count as usize);
    let spot = children.spot(page, entry.key);
    let at = make_room(page, children, spot);
    entries::write_child(page, at, entry);
    stamp(page, count + 1, c);
}

// The entry under a key gives way to another.
fn set_child_in(page: &mut [u8], entry: ChildEntry, c: u32)
    requires page_len { length page.old ≡ page_size }
    requires has_child { HasChild entry.key (view_in page.old) }
    ensures { page.new ≡ change_bytes
        (touch c (put_child (new_child entry.birth entry.key entry.child entry.previous) (view_in page.old)) (page_in page.old)) page.old }
{
    let count = fields::get16(page, AT_COUNT);
    let children = Entries::children(count as usize);
    let past = children.spot(page, entry.key);
    entries::write_child(page, children.at(past - 1), entry);
    stamp(page, count, c);
}

fn put_twins_in(page: &mut [u8], lower: Half, upper: Half, previous: u16, c: u32)
    requires page_len { length page.old ≡ page_size }
    requires takes_twins { TakesTwins lower.low upper.low (view_in page.old) }
    ensures { page.new ≡ change_bytes
        (touch c (twins_of c lower.low lower.child upper.low upper.child previous (view_in page.old)) (page_in page.old)) page.old }
{
    set_child_in(page, lower.entry(previous, c), c);
    put_child_in(page, upper.entry(previous, c), c);
}

// The functions above change a page's own bytes, so that what is proved of them has no table around it; those below cut the
// page out of a table.

// A certificate is put into a leaf in key order.
pub fn put_cert(table: &mut [u8], i: usize, key: u64, value: u32, c: u32)
    requires page_size_in_bounds { (i + 1) * page_size ≤ length table.old }
    requires takes_cert { TakesCert key (read table.old i).view }
    ensures { table.new ≡ changed c (put_cert (new_cert key value)) table.old i }
{
    let a = i * PAGE;
    put_cert_in(&mut table[a..a + PAGE], key, value, c);
}

// A certificate is taken out of a leaf.
pub fn remove_cert(table: &mut [u8], i: usize, key: u64, c: u32)
    requires page_size_in_bounds { (i + 1) * page_size ≤ length table.old }
    requires has_cert { HasCert key (read table.old i).view }
    ensures { table.new ≡ removed c key table.old i }
{
    let a = i * PAGE;
    remove_cert_in(&mut table[a..a + PAGE], key, c);
}

// The entry of a split page becomes two, for its halves, which have one previous page.
pub fn put_twins(table: &mut [u8], i: usize, lower: Half, upper: Half, previous: u16, c: u32)
    requires page_size_in_bounds { (i + 1) * page_size ≤ length table.old }
    requires takes_twins { TakesTwins lower.low upper.low (read table.old i).view }
    ensures { table.new ≡ changed c (twins_of c lower.low lower.child upper.low upper.child previous) table.old i }
{
    let a = i * PAGE;
    put_twins_in(&mut table[a..a + PAGE], lower, upper, previous, c);
}
