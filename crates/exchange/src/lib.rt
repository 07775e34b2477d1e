// The exchange file: its form, and its reader's test.
//
// specs/ says which file a set of certificates has (K4), how a file of any bytes is judged (K9), which certificates an
// accepted one tells of, and what the call leaves that reads it into a store. proofs/ shows that the accepted files are
// exactly those of sets of certificates. `check` judges a file where it lies, in one pass and without a copy of any
// part; `cert_at` then finds each certificate of an accepted file. The `put` functions write an item into a lent
// output, for the call that writes a store's file.
//
// Below stand `fields`, numbers in bytes, `rules`, and `numbers`, where a refusal has its number.

#![tactic(auto)]

ghost use Rattle.std.specs.Prelude.{◌≡◌, ◌+◌, ◌*◌, ◌^◌, ◌≤◌, ◌<◌, length, Ok};
ghost use Rattle.fields.specs.Field.{le_at};
ghost use Rattle.exchange.specs.Item.{item_for, item_at, size, count_width, put_item};
ghost use Rattle.exchange.specs.Judged.{follows, items_judged, section_judged, after, certs_at, judged, checked};
ghost use Rattle.exchange.specs.Told.{cert_in};
ghost use Rattle.exchange.specs.ReadFile.{read_error_no};
ghost use Rattle.exchange.specs.declared.Section.{Section};

use fields::{get16, get32, put16, put32};
use numbers::Refusal;
use rules::{Report, Session};

// Nothing bad, or the byte where the first bad item begins.
pub type Judged = Result<(), usize>;

// How many certificates an accepted file tells of, or that byte.
pub type Checked = Result<u32, usize>;

// A certificate, as an accepted file tells of it.
#[derive(Clone, Copy, PartialEq, Eq, Debug)]
pub struct Certificate {
    pub model: u16,
    pub serial: u32,
    pub issue: u16,
    pub record: u32,
}

// Why a file isn't read into a store: a lent slice of a wrong length, or the byte where the first bad item begins.
#[derive(Clone, Copy, PartialEq, Eq, Debug)]
pub enum ReadError {
    Length,
    File(usize),
}

impl Refusal for ReadError {
    ghost number_of = { read_error_no };

    #[tactic(auto, unfolding(crate::specs::ReadFile::read_error_no))]
    fn number(self) -> u32 {
        match self {
            ReadError::Length => 1,
            ReadError::File(_) => 11,
        }
    }
}

// What the call that reads it answers: how many certificates were done.
pub type Read = Result<u32, ReadError>;

// What that call hands back.
pub type Reading = rules::Reporting<Read>;

// A section's count, and an item of each section, in bytes.
pub const COUNT: usize = 4;

pub const MODEL: usize = 2;

pub const METER: usize = 6;

pub const CERT: usize = 10;

// What puts an item in order: the place it names, and its model, serial or issue under that.
#[derive(Clone, Copy)]
struct Rank {
    place: u32,
    number: u32,
}

impl Rank {
    // An item that is not cut off is not bad, by the one before it: `used` is one more than that one's place, `last` its
    // number. Its own place is the next, or the one before's, with a larger number.
    #[tactic(auto, unfolding(crate::specs::Judged::follows, crate::specs::Judged::is_above, rules::specs::Test::every))]
    fn follows(self, over: u32, used: u32, last: u32) -> bool
        ensures { result ≡ follows over used last self.place self.number }
    {
        if self.number == 0 || self.place >= over {
            return false;
        }
        self.place == used || self.place + 1 == used && self.number > last
    }
}

// The file's sections, in its order. An enum and no trait: one loop walks all three, and wants an item's size and rank
// of each.
#[derive(Clone, Copy, PartialEq, Eq, Debug)]
pub enum Section {
    Models,
    Meters,
    Certificates,
}

impl Section {
    // An item's bytes.
    #[tactic(auto, unfolding(crate::specs::Item::size, crate::specs::Item::place_width, crate::specs::Item::number_width, crate::specs::Item::value_width))]
    fn size(self) -> usize
        ensures { result ≡ size self }
    {
        match self {
            Section::Models => MODEL,
            Section::Meters => METER,
            Section::Certificates => CERT,
        }
    }

    // The rank of the item that begins at a byte. All models stand under one roof, at place 0.
    #[tactic(auto, unfolding(crate::specs::Item::size, crate::specs::Item::place_width, crate::specs::Item::number_width, crate::specs::Item::value_width, crate::specs::Item::item_at))]
    fn rank_at(self, f: &[u8], at: usize) -> Rank
        requires { at + size self ≤ length f.now }
        ensures place { result.place ≡ (item_at self f.now at).place }
        ensures number { result.number ≡ (item_at self f.now at).number }
    {
        match self {
            Section::Models => Rank {
                place: 0,
                number: u32::from(get16(f, at)),
            },
            Section::Meters => Rank {
                place: u32::from(get16(f, at)),
                number: get32(f, at + 2),
            },
            Section::Certificates => Rank {
                place: get32(f, at),
                number: u32::from(get16(f, at + 4)),
            },
        }
    }

    // The first byte after a section, whose count begins at a byte.
    fn after(self, f: &[u8], at: usize) -> usize
        requires { after self f.now at ≤ length f.now }
        ensures { result ≡ after self f.now at }
    {
        self.item_from(at, get32(f, at))
    }

    // The first byte of an item, by its place in the section whose count begins there.
    fn item_from(self, at: usize, place: u32) -> usize
        requires { at + count_width + size self * place < 2 ^ 64 }
        ensures { result ≡ at + count_width + size self * place }
    {
        at + COUNT + self.size() * place as usize
    }
}

// The items of a section, from the first one's byte on. A turn takes bytes of the file or ends, whatever the count says.
fn items_judged(f: &[u8], s: Section, over: u32, begun: u32, count: u32, from: usize) -> Judged
    requires { from ≤ length f.now }
    ensures { result ≡ items_judged s f.now over count from begun 0 }
{
    // The file goes with its byte and is not cut there, since the byte that is told counts from its start. `used` and
    // `last` are no rank: before the first item they are that of none.
    let width = s.size();
    let mut at = from;
    let mut used = begun;
    let mut last = 0;
    for _ in 0..count {
        if f.len() - at < width {
            return Err(at);
        }
        let item = s.rank_at(f, at);
        if !item.follows(over, used, last) {
            return Err(at);
        }
        used = item.place + 1;
        last = item.number;
        at += width;
    }
    if used != over {
        return Err(at);
    }
    Ok(())
}

// A section, from its count on.
fn section_judged(f: &[u8], s: Section, over: u32, used: u32, at: usize) -> Judged
    requires { at ≤ length f.now }
    ensures { result ≡ section_judged s f.now over used at }
{
    if f.len() - at < COUNT {
        return Err(at);
    }
    items_judged(f, s, over, used, get32(f, at), at + COUNT)
}

// Whether a file of any bytes is the file of a set of certificates, and of how many; or where its first bad item begins.
pub fn check(f: &[u8]) -> Checked
    ensures { result ≡ checked f.now }
{
    section_judged(f, Section::Models, 1, 1, 0)?;
    let models = get32(f, 0);
    let before = Section::Models.after(f, 0);
    section_judged(f, Section::Meters, models, 0, before)?;
    let meters = get32(f, before);
    let at = Section::Meters.after(f, before);
    section_judged(f, Section::Certificates, meters, 0, at)?;
    let end = Section::Certificates.after(f, at);
    if end != f.len() {
        return Err(end);
    }
    Ok(get32(f, at))
}

// The certificate at a place of an accepted file. It is found by its place alone, without a walk.
pub fn cert_at(f: &[u8], place: u32) -> Certificate
    requires { (judged f.now ≡ Ok tt) × (place < le_at f.now (certs_at f.now) count_width) }
    ensures { result ≡ cert_in f.now place }
{
    let meters = Section::Models.after(f, 0);
    let certs = Section::Meters.after(f, meters);
    let cert = Section::Certificates.item_from(certs, place);
    let meter = Section::Meters.item_from(meters, get32(f, cert));
    let model = Section::Models.item_from(0, u32::from(get16(f, meter)));
    Certificate {
        model: get16(f, model),
        serial: get32(f, meter + 2),
        issue: get16(f, cert + 4),
        record: get32(f, cert + 6),
    }
}

// An item written into the lent output; every other byte stays. Each kind has a function of its own, since its parts have
// widths of their own: one function for all kinds would be lent numbers that may not fit.

pub fn put_model(out: &mut [u8], at: usize, model: u16)
    requires { at + 2 ≤ length out.old }
    ensures { out.new ≡ put_item Section.Models out.old at (item_for 0 model 0) }
{
    put16(out, at, model);
}

pub fn put_meter(out: &mut [u8], at: usize, place: u16, serial: u32)
    requires { at + 6 ≤ length out.old }
    ensures { out.new ≡ put_item Section.Meters out.old at (item_for place serial 0) }
{
    put16(out, at, place);
    put32(out, at + 2, serial);
}

pub fn put_cert(out: &mut [u8], at: usize, place: u32, issue: u16, record: u32)
    requires { at + 10 ≤ length out.old }
    ensures { out.new ≡ put_item Section.Certificates out.old at (item_for place issue «record») }
{
    put32(out, at, place);
    put16(out, at + 4, issue);
    put32(out, at + 6, record);
}
