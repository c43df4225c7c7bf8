// Cells of 64 bits as a row of bits, one for each position.
//   write_bits     sets the bits at given positions, and no others
//   bits_from      the bits from a position to the end of its cell
//   lowest         where the lowest bit of them is: trailing zeros
//   first_from     the first break from a position on
//   count_up_to    the breaks up to and including a position: ones counted
#![tactic(auto)]

ghost use Rattle.std.specs.Prelude.{◌≡◌, ℕ, ◌*◌, ◌-◌, ◌/◌, ◌%◌, ◌^◌, ◌≤◌, ◌<◌, ◌+◌, length, get_or, set, replicate};
ghost use Rattle.std.specs.Int.Bits.{bit_or};
ghost use Rattle.std.specs.Int.Count.{ones, count_trailing_zeros};
ghost use Rattle.newmm_rules.specs.Positions.{how_many, member};
ghost use Rattle.break_map_rules.specs.Answers.{first_of};
ghost use Rattle.break_map_rules.specs.Maps.{word, cells, is_break, breaks, breaks_up_to};

// The bits of a cell.
pub const BITS: usize = 64;

fn set_bit(map: &mut [u64], p: usize)
    requires { p < 64 * length map.old }
    ensures { map.new
        ≡ set map.old (p / 64) (bit_or (get_or map.old (p / 64) 0) (2 ^ (p % 64))) }
{
    map[p / BITS] |= 1 << (p % BITS);
}

// Sets the bits at the given positions, and no others, whatever the cells held before.
pub fn write_bits(map: &mut [u64], positions: &[u32])
    requires { (i : ℕ) → i < length positions.now → get_or positions.now i 0 < 64 * length map.old }
    ensures { map.new
        ≡ cells (λ (p : ℕ). member p positions.now) (length map.old) 0 }
{
    map.fill(0);
    for p in positions {
        set_bit(map, *p as usize);
    }
}

// The bits from position p to the end of its cell, lowest first.
pub fn bits_from(map: &[u64], p: usize) -> u64
    requires { p < 64 * length map.now }
    ensures { result ≡ word (is_break map.now) (64 - p % 64) p }
{
    map[p / BITS] >> (p % BITS)
}

// How many bits stand below the lowest that is set.
pub fn lowest(bits: u64) -> usize
    ensures { (result ≡ count_trailing_zeros 64 bits) × (result ≤ 64) }
{
    bits.trailing_zeros() as usize
}

// The first break of a map from position `from` on.
pub fn first_from(map: &[u64], from: usize) -> Option<usize>
    requires { length map.now ≤ 1024 }
    ensures { result ≡ first_of (breaks map.now (64 * length map.now - from) from) }
{
    let mut p = from;
    // Kept: (3) p goes from a position to where the next cell begins, which no range says.
    while p < BITS * map.len() {
        let bits = bits_from(map, p);
        if bits != 0 {
            return Some(p + lowest(bits));
        }
        p = (p / BITS + 1) * BITS;
    }
    None
}

fn ones_of(bits: u64) -> usize
    ensures { (result ≡ ones bits) × (result ≤ 64) }
{
    bits.count_ones() as usize
}

// The number of breaks up to and including a position.
pub fn count_up_to(map: &[u64], position: usize) -> usize
    requires { (position < 64 * length map.now) × (position ≤ 65535) }
    ensures { result ≡ breaks_up_to map.now position }
{
    let last = position / BITS;
    let mut count = 0;
    for bits in &map[..last] {
        count += ones_of(*bits);
    }
    count + ones_of(map[last] << (BITS - 1 - position % BITS))
}
