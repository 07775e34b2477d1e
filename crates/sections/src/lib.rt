// The exchange file's bytes, certificate by certificate, in key order.
//
// Each of the three sections grows behind what stands in it: the first certificate of a model or meter writes that too,
// and the places that items name are those of the last model and meter. proofs/File shows that the certificates of a
// set, put one after the other behind the counts, leave the set's file over the output.
//
// Below stand `exchange`, which writes one item, `counts`, which keeps the tally, `head` and `fields`.

#![tactic(auto)]

ghost use Rattle.std.specs.Prelude.{◌≡◌, ◌+◌, ◌*◌, ◌-◌, ◌≤◌, length, drop};
ghost use Rattle.rules.specs.Layout.{leaf_header, cert_size};
ghost use Rattle.rules.specs.Entry.{cut};
ghost use Rattle.rules.specs.Page.{read_each, cert_in};
ghost use Rattle.counts.specs.Tally.{counted, counted_in, counted_all, Few};
ghost use Rattle.sections.specs.Puts.{starts_of, put_counts, put_model, put_meter, put_cert, put_next, put_from, putting, put_all, Lies};

use counts::{BY_METER, BY_MODEL, Tally, counted};
use dry::KeyRange;
use exchange::{CERT, COUNT, METER, MODEL};
use fields::put32;
use head::{cert_key, cert_record};

// Where the items of the last two sections begin, and where the file ends. The models begin behind the first count.
//
// It is handed on beside the tally, and not in one value with it: the tally goes on from certificate to certificate, and
// this stays.
#[derive(Clone, Copy)]
pub struct Starts {
    pub meters: usize,
    pub certs: usize,
    pub end: usize,
}

// The first model's byte, behind the first count.
const MODELS: usize = COUNT;

// The file of so many of each.
pub fn starts_of(c: Tally) -> Starts
    requires { Few c × (c.certs ≤ 4294967295) }
    ensures { result ≡ starts_of c }
{
    let meters = MODELS + COUNT + MODEL * c.models;
    let certs = meters + COUNT + METER * c.meters;
    Starts {
        meters,
        certs,
        end: certs + CERT * c.certs,
    }
}

// The three counts.
pub fn put_counts(out: &mut [u8], s: Starts, c: Tally)
    requires { Few c × (c.certs ≤ 4294967295) × (s ≡ starts_of c) × ((starts_of c).end ≤ length out.old) }
    ensures { out.new ≡ put_counts c out.old }
{
    put32(out, 0, c.models as u32);
    put32(out, s.meters - COUNT, c.meters as u32);
    put32(out, s.certs - COUNT, c.certs as u32);
}

// The model of a certificate that is its first.
fn put_model(out: &mut [u8], c: Tally, d: Tally, key: u64)
    requires { (c.models ≤ d.models) × (4 + 2 * d.models ≤ length out.old) }
    ensures { out.new ≡ put_model c d key out.old }
{
    if d.models == c.models {
        return;
    }
    exchange::put_model(out, MODELS + MODEL * c.models, (key / BY_MODEL) as u16);
}

// The meter of a certificate that is its first, by the place of its model, which is the last.
fn put_meter(out: &mut [u8], s: Starts, c: Tally, d: Tally, key: u64)
    requires { (c.meters ≤ d.meters) × (d.models ≤ 65536) × (s.meters + 6 * d.meters ≤ length out.old) }
    ensures { out.new ≡ put_meter s c d key out.old }
{
    if d.meters == c.meters {
        return;
    }
    let place = d.models.saturating_sub(1) as u16;
    let serial = (key / BY_METER % 4_294_967_296) as u32;
    exchange::put_meter(out, s.meters + METER * c.meters, place, serial);
}

// The certificate, by the place of its meter, which is the last.
fn put_cert(out: &mut [u8], s: Starts, c: Tally, d: Tally, key: u64, record: u32)
    requires { (c.certs + 1 ≤ d.certs) × (d.meters ≤ 4294967295) × (s.certs + 10 * d.certs ≤ length out.old) }
    ensures { out.new ≡ put_cert s c d (record { key = key; value = «record» }) out.old }
{
    let place = d.meters.saturating_sub(1) as u32;
    let issue = (key % BY_METER) as u16;
    exchange::put_cert(out, s.certs + CERT * c.certs, place, issue, record);
}

// A certificate, with its model and its meter.
fn put_next(out: &mut [u8], s: Starts, c: Tally, key: u64, record: u32) -> Tally
    requires { Few c × (c.certs ≤ 4294967295) × Lies s (counted c key) (length out.old) }
    ensures { putting result out.new ≡ putting (counted c key) (put_next s c (record { key = key; value = «record» }) out.old) }
{
    let d = counted(c, key);
    put_model(out, c, d, key);
    put_meter(out, s, c, d, key);
    put_cert(out, s, c, d, key, record);
    d
}

// The same, if its key lies in a range.
fn put_from(out: &mut [u8], s: Starts, range: KeyRange, c: Tally, key: u64, record: u32) -> Tally
    requires { Few c × (c.certs ≤ 4294967295) × Lies s (counted_in range.low range.high c key) (length out.old) }
    ensures { putting result out.new ≡ put_from s range.low range.high c (record { key = key; value = «record» }) out.old }
{
    if !range.holds(key) {
        return c;
    }
    put_next(out, s, c, key, record)
}

// The certificates of a leaf that lie in a range.
pub fn put_leaf(
    page: &[u8],
    entries: usize,
    range: KeyRange,
    s: Starts,
    c: Tally,
    out: &mut [u8],
) -> Tally
    requires { (leaf_header + cert_size * entries ≤ length page.now) × Few c
        × Lies s (counted_all c (cut range.low range.high (read_each cert_in cert_size entries (drop leaf_header page.now)))) (length out.old) }
    ensures { putting result out.new
        ≡ put_all s c (cut range.low range.high (read_each cert_in cert_size entries (drop leaf_header page.now))) out.old }
{
    let mut tally = c;
    for j in 0..entries {
        let key = cert_key(page, j);
        let record = cert_record(page, j);
        tally = put_from(out, s, range, tally, key, record);
    }
    tally
}
