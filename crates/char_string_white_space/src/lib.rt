// Which characters trimming strips: Unicode's White_Space.
#![tactic(auto)]

ghost use Rattle.std.specs.Prelude.{◌≡◌};
ghost use Rattle.char_string_white_space.specs.Trimmed.{is_trimmed};

// Unicode's White_Space, as 02 lists it. The scripts above are told at once.
pub fn is_trimmed(x: u32) -> bool
    ensures { result ≡ is_trimmed x }
{
    if 0x3000 < x {
        return false;
    }
    match x {
        0x9..=0xD => true,
        0x20 | 0x85 | 0xA0 | 0x1680 => true,
        0x2000..=0x200A => true,
        0x2028 | 0x2029 | 0x202F | 0x205F | 0x3000 => true,
        _ => false,
    }
}
