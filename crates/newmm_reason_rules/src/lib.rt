// Why a token ends where it does: the rule stands in specs/, what follows from it in proofs/.
#![tactic(auto)]

ghost use Rattle.std.specs.Prelude.{◌≡◌};
ghost use Rattle.newmm_reason_rules.specs.Numbers.{number_of, numbered};

// The reasons, in the order of 02.
#[derive(Clone, Copy, Debug, PartialEq, Eq)]
pub enum Reason {
    DictionaryWord = 1,
    NonThaiRun = 2,
    ToWord = 3,
    ToNonThai = 4,
    ToEnd = 5,
}

impl Reason {
    // The number that hosts see, 1 to 5.
    pub fn number(self) -> u32
        ensures { result ≡ number_of self }
    {
        self as u32
    }

    // The reason with this number, none where it is not 1 to 5.
    pub fn from_number(n: u32) -> Option<Reason>
        ensures { result ≡ numbered n }
    {
        match n {
            1 => Some(Reason::DictionaryWord),
            2 => Some(Reason::NonThaiRun),
            3 => Some(Reason::ToWord),
            4 => Some(Reason::ToNonThai),
            5 => Some(Reason::ToEnd),
            _ => None,
        }
    }
}
