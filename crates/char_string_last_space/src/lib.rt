// The last space of a text, after `rfind_space_char_index` of char_string.rs.
#![tactic(auto)]

ghost use Rattle.std.specs.Prelude.{◌≡◌};
ghost use Rattle.char_string_last_space.specs.Spaces.{last_space};

// The index of the last U+0020.
pub fn rfind_space_char_index(text: &[u32]) -> Option<usize>
    ensures { result ≡ last_space text.now }
{
    text.iter().rposition(|x| *x == 0x20)
}
