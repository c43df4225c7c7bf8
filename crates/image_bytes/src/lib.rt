// Bytes at a place of a row: numbers, little-endian, a scalar in UTF-8, the bytes of another row.
#![tactic(auto)]

ghost use Rattle.std.specs.Prelude.{◌≡◌, ◌+◌, ◌%◌, ◌≤◌, ◌<◌, length};
ghost use Rattle.utf8_sequences.specs.Utf8.{bytes_of};
ghost use Rattle.image_rules.specs.Records.{le};
ghost use Rattle.image_bytes.specs.inner.Laying.{laid_at};

// The two lowest bytes of a number.
pub fn put_two(row: &mut [u8], at: usize, v: usize)
    requires { at + 2 ≤ length row.old }
    ensures { row.new ≡ laid_at at (le 2 v) row.old }
{
    row[at] = (v % 256) as u8;
    row[at + 1] = (v / 256 % 256) as u8;
}

// The four lowest bytes of a number.
pub fn put_four(row: &mut [u8], at: usize, v: usize)
    requires { at + 4 ≤ length row.old }
    ensures { row.new ≡ laid_at at (le 4 v) row.old }
{
    put_two(row, at, v);
    put_two(row, at + 2, v / 256 / 256);
}

// The bytes of another row.
pub fn put_bytes(row: &mut [u8], at: usize, part: &[u8])
    requires { at + length part.now ≤ length row.old }
    ensures { row.new ≡ laid_at at part.now row.old }
{
    for i in 0..part.len() {
        row[at + i] = part[i];
    }
}

// How many bytes a scalar has in UTF-8.
pub fn scalar_size(x: u32) -> usize
    ensures { result ≡ length (bytes_of x) }
{
    match x {
        0..=0x7F => 1,
        0x80..=0x7FF => 2,
        0x800..=0xFFFF => 3,
        _ => 4,
    }
}

// A scalar in UTF-8. Answers the place behind it.
pub fn put_scalar(row: &mut [u8], at: usize, x: u32) -> usize
    requires { (x < 0x110000) × (at + length (bytes_of x) ≤ length row.old) }
    ensures value { result ≡ at + length (bytes_of x) }
    ensures row_after { row.new ≡ laid_at at (bytes_of x) row.old }
{
    let v = x as usize;
    if v < 0x80 {
        row[at] = v as u8;
        return at + 1;
    }
    if v < 0x800 {
        row[at] = (0xC0 + v / 64) as u8;
        row[at + 1] = (0x80 + v % 64) as u8;
        return at + 2;
    }
    if v < 0x10000 {
        row[at] = (0xE0 + v / 4096) as u8;
        row[at + 1] = (0x80 + v / 64 % 64) as u8;
        row[at + 2] = (0x80 + v % 64) as u8;
        return at + 3;
    }
    row[at] = (0xF0 + v / 262144) as u8;
    row[at + 1] = (0x80 + v / 4096 % 64) as u8;
    row[at + 2] = (0x80 + v / 64 % 64) as u8;
    row[at + 3] = (0x80 + v % 64) as u8;
    at + 4
}
