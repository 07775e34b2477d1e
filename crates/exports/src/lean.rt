// The calls that only read, for callers in C who keep the session where it is.
//
// Of a session they need n and c alone, and they hand it back as it came. So each has a lean form: it takes these two
// numbers and hands no session back, which spares the copies of one. Nothing is required here either.
//
// Each contract is that of the call: for every session with these numbers, what is handed back, with that session beside
// it, and every byte lent are the rule's.
//
// Below stand `store`, `numbers`, for the number of an answer and those beside it, `write`, for a file's length, and
// `rules`.
ghost use Rattle.std.specs.Prelude.{◌≡◌};
ghost use Rattle.rules.specs.Reports.{lookup_reported, newest_reported, has_any_reported, list_reported};
ghost use Rattle.rules.specs.declared.Session.{Session};
ghost use Rattle.write.specs.WriteFile.{write_reported};
ghost use Rattle.exports.specs.Leaves as C;
ghost use Rattle.exports.specs.Lean;

#[repr(C)]
#[derive(Clone, Copy)]
pub struct KhLeanLooked {
    pub answer: u32,
    pub record: u32,
    pub mended: u32,
    pub reason: u32,
}

#[repr(C)]
#[derive(Clone, Copy)]
pub struct KhLeanNewest {
    pub answer: u32,
    pub issue: u32,
    pub record: u32,
    pub mended: u32,
    pub reason: u32,
}

#[repr(C)]
#[derive(Clone, Copy)]
pub struct KhLeanAny {
    pub answer: u32,
    pub any: u32,
    pub mended: u32,
    pub reason: u32,
}

#[repr(C)]
#[derive(Clone, Copy)]
pub struct KhLeanListed {
    pub answer: u32,
    pub count: u64,
    pub mended: u32,
    pub reason: u32,
}

#[repr(C)]
#[derive(Clone, Copy)]
pub struct KhLeanWritten {
    pub answer: u32,
    pub length: u64,
    pub mended: u32,
    pub reason: u32,
}

#[unsafe(no_mangle)]
pub extern "C" fn kh_lean_lookup(
    working: &mut [u8],
    stable: &[u8],
    n: u16,
    c: u32,
    model: u16,
    serial: u32,
    issue: u16,
) -> KhLeanLooked
    ensures { (s : Session) → s.n ≡ n → s.c ≡ c → C.leaves (Lean.looked s result) working.new stable.now
        ≡ C.looked (lookup_reported working.old stable.now s model serial issue) }
{
    let left = store::lean_lookup(working, stable, n, c, model, serial, issue);
    let answer = left.answer;
    let report = left.report;
    let reason = report.reason;
    KhLeanLooked {
        answer: numbers::number(answer),
        record: numbers::looked_record(answer),
        mended: report.mended,
        reason: numbers::reason(reason),
    }
}

#[unsafe(no_mangle)]
pub extern "C" fn kh_lean_newest(
    working: &mut [u8],
    stable: &[u8],
    n: u16,
    c: u32,
    model: u16,
    serial: u32,
) -> KhLeanNewest
    ensures { (s : Session) → s.n ≡ n → s.c ≡ c → C.leaves (Lean.newest s result) working.new stable.now
        ≡ C.newest (newest_reported working.old stable.now s model serial) }
{
    let left = store::lean_newest(working, stable, n, c, model, serial);
    let answer = left.answer;
    let report = left.report;
    let reason = report.reason;
    KhLeanNewest {
        answer: numbers::number(answer),
        issue: numbers::newest_issue(answer),
        record: numbers::newest_record(answer),
        mended: report.mended,
        reason: numbers::reason(reason),
    }
}

#[unsafe(no_mangle)]
pub extern "C" fn kh_lean_has_any(
    working: &mut [u8],
    stable: &[u8],
    n: u16,
    c: u32,
    model: u16,
    serial: u32,
) -> KhLeanAny
    ensures { (s : Session) → s.n ≡ n → s.c ≡ c → C.leaves (Lean.any s result) working.new stable.now
        ≡ C.any (has_any_reported working.old stable.now s model serial) }
{
    let left = store::lean_has_any(working, stable, n, c, model, serial);
    let answer = left.answer;
    let report = left.report;
    let reason = report.reason;
    KhLeanAny {
        answer: numbers::number(answer),
        any: numbers::any_yes(answer),
        mended: report.mended,
        reason: numbers::reason(reason),
    }
}

#[unsafe(no_mangle)]
pub extern "C" fn kh_lean_list(
    working: &mut [u8],
    stable: &[u8],
    n: u16,
    c: u32,
    start: u64,
    keys: &mut [u64],
    records: &mut [u32],
) -> KhLeanListed
    ensures { (s : Session) → s.n ≡ n → s.c ≡ c
        → C.listing (Lean.listed s result) working.new stable.now keys.new records.new
        ≡ C.listed (list_reported working.old stable.now s start keys.old records.old) }
{
    let left = store::lean_list(working, stable, n, c, start, keys, records);
    let answer = left.answer;
    let report = left.report;
    let reason = report.reason;
    KhLeanListed {
        answer: numbers::number(answer),
        count: numbers::listed_count(answer),
        mended: report.mended,
        reason: numbers::reason(reason),
    }
}

#[unsafe(no_mangle)]
pub extern "C" fn kh_lean_write_file(
    working: &mut [u8],
    stable: &[u8],
    n: u16,
    c: u32,
    out: &mut [u8],
) -> KhLeanWritten
    ensures { (s : Session) → s.n ≡ n → s.c ≡ c
        → C.writing (Lean.written s result) working.new stable.now out.new
        ≡ C.written (write_reported working.old stable.now s out.old) }
{
    let left = store::lean_write_file(working, stable, n, c, out);
    let answer = left.answer;
    let report = left.report;
    let reason = report.reason;
    KhLeanWritten {
        answer: numbers::number(answer),
        length: write::length_of(answer),
        mended: report.mended,
        reason: numbers::reason(reason),
    }
}
