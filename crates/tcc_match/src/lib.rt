// The matcher of Thai character clusters: it goes by the first characters of a cluster.
#![tactic(auto)]

mod after_consonant;
mod after_e;
mod after_vowel;
mod group;
mod letters;
mod matcher;

pub use letters::is_consonant;
pub use matcher::cluster_end;
