// Little-endian numbers of 2, 4 and 8 bytes, read and written at an offset of a slice of bytes.
//
// A get answers the number that the bytes of the field stand for. A put leaves the slice with that field set and every
// other byte as it was. Both ask that the field lies within the slice, and nothing else.
//
// Each width has its get and its put: the library's `from_le_bytes` and `to_le_bytes` belong to no trait, so one pair over
// a type parameter would need a trait of its own, with these six bodies in its impls.
//
// Below stands specs/Field: what a field is, at any width. The laws of proofs/ hold at every width too.

#![tactic(auto)]

ghost use Rattle.std.specs.Prelude.{◌≡◌, ◌+◌, ◌≤◌, length, take, drop};
ghost use Rattle.fields.specs.Field.{le_at, put_at};

// The bytes of a field.
fn bytes_at<const N: usize>(b: &[u8], at: usize) -> [u8; N]
    requires { at + N ≤ length b.now }
    ensures { result ≡ take N (drop at b.now) }
{
    let mut field = [0; N];
    field.copy_from_slice(&b[at..at + N]);
    field
}

pub fn get16(b: &[u8], at: usize) -> u16
    requires { at + 2 ≤ length b.now }
    ensures { result ≡ le_at b.now at 2 }
{
    u16::from_le_bytes(bytes_at(b, at))
}

pub fn get32(b: &[u8], at: usize) -> u32
    requires { at + 4 ≤ length b.now }
    ensures { result ≡ le_at b.now at 4 }
{
    u32::from_le_bytes(bytes_at(b, at))
}

pub fn get64(b: &[u8], at: usize) -> u64
    requires { at + 8 ≤ length b.now }
    ensures { result ≡ le_at b.now at 8 }
{
    u64::from_le_bytes(bytes_at(b, at))
}

pub fn put16(b: &mut [u8], at: usize, v: u16)
    requires { at + 2 ≤ length b.old }
    ensures { b.new ≡ put_at b.old at 2 v }
{
    b[at..at + 2].copy_from_slice(&v.to_le_bytes());
}

pub fn put32(b: &mut [u8], at: usize, v: u32)
    requires { at + 4 ≤ length b.old }
    ensures { b.new ≡ put_at b.old at 4 v }
{
    b[at..at + 4].copy_from_slice(&v.to_le_bytes());
}

pub fn put64(b: &mut [u8], at: usize, v: u64)
    requires { at + 8 ≤ length b.old }
    ensures { b.new ≡ put_at b.old at 8 v }
{
    b[at..at + 8].copy_from_slice(&v.to_le_bytes());
}
