// The characters and classes that the alternatives name.
ghost use Rattle.std.specs.Prelude.{◌≡◌, ◌++◌, get_or};
ghost use Rattle.tcc_rules.specs.Patterns.{holds};
ghost use Rattle.tcc_rules.specs.Rules.{is, up_to, consonant, tone, d_or_i};

pub const SPACE: u32 = 0x20;

pub const YO_YAK: u32 = 0xE22;

pub const RO_RUA: u32 = 0xE23;

pub const O_ANG: u32 = 0xE2D;

pub const SARA_A: u32 = 0xE30;

pub const MAI_HAN_AKAT: u32 = 0xE31;

pub const SARA_AA: u32 = 0xE32;

pub const SARA_AM: u32 = 0xE33;

pub const SARA_I: u32 = 0xE34;

pub const SARA_II: u32 = 0xE35;

pub const SARA_UEE: u32 = 0xE37;

pub const SARA_U: u32 = 0xE38;

pub const SARA_E: u32 = 0xE40;

pub const SARA_AE: u32 = 0xE41;

pub const SARA_O: u32 = 0xE42;

pub const MAITAIKHU: u32 = 0xE47;

pub const THANTHAKHAT: u32 = 0xE4C;

// The character at p. Past the end it is 0, which is in no class.
pub fn at(text: &[u32], p: usize) -> u32
    ensures { result ≡ get_or text.now p 0 }
{
    text.get(p).copied().unwrap_or(0)
}

pub fn is_consonant(x: u32) -> bool
    ensures { result ≡ holds consonant x }
{
    matches!(x, 0xE01..=0xE2E)
}

pub fn is_tone(x: u32) -> bool
    ensures { result ≡ holds tone x }
{
    matches!(x, 0xE48..=0xE4B)
}

// ใ or ไ
pub fn is_sara_ai(x: u32) -> bool
    ensures { result ≡ holds (up_to 0xE43 0xE44) x }
{
    matches!(x, 0xE43 | 0xE44)
}

// [ะ-ู]
pub fn is_vowel(x: u32) -> bool
    ensures { result ≡ holds (up_to 0xE30 0xE39) x }
{
    matches!(x, 0xE30..=0xE39)
}

// ั or ื
pub fn is_closed(x: u32) -> bool
    ensures { result ≡ holds (is 0xE31 ++ is 0xE37) x }
{
    matches!(x, MAI_HAN_AKAT | SARA_UEE)
}

// [ิุู]
pub fn is_d_or_i(x: u32) -> bool
    ensures { result ≡ holds d_or_i x }
{
    matches!(x, SARA_I | SARA_U..=0xE39)
}
