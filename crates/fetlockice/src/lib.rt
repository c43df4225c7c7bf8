// The functions for hosts, written in C or Rust, which link them from fetlockice_c: each hands its
// call on to a function of a host_ crate, with its mode and its plant where it has one, and has that
// function's contract. No struct crosses.
// Kept: (2) C knows names and no enums, so each mode has an export, and fetlockice_c exports each
// once more: no other crate can stand on the static library, and theorems speak of this one.
// Kept: (1) C has no `Plant`: an export takes `plant_b`, and hands on what `whose` makes of it.
// Kept: (6) the slices and references are those of the C interface.
#![tactic(auto)]

mod claims;
mod cuts;
mod feeds;
mod images;
mod many;
mod maps;
mod plants;
mod plants_many;
mod reasons;
mod texts;
mod words;

pub use claims::fetlockice_check_claim;
pub use cuts::{fetlockice_cut_plain, fetlockice_cut_safe, fetlockice_cut_sheet};
pub use feeds::{
    fetlockice_feed_plain, fetlockice_feed_refused, fetlockice_feed_safe, fetlockice_feed_sheet,
    fetlockice_join_figures,
};
pub use images::{fetlockice_read_image, fetlockice_write_image};
pub use many::{
    fetlockice_cut_many_plain, fetlockice_cut_many_safe, fetlockice_cut_many_sheet,
    fetlockice_reasons_many_plain, fetlockice_reasons_many_safe, fetlockice_reasons_many_sheet,
};
pub use maps::{fetlockice_break_map, fetlockice_breaks_up_to, fetlockice_next_break};
pub use plants::{
    fetlockice_plant_add, fetlockice_plant_contains, fetlockice_plant_cut_plain,
    fetlockice_plant_cut_safe, fetlockice_plant_cut_sheet, fetlockice_plant_prefix_lengths,
    fetlockice_plant_read_image, fetlockice_plant_reasons_plain, fetlockice_plant_reasons_safe,
    fetlockice_plant_reasons_sheet, fetlockice_plant_remove, fetlockice_plant_word_count,
    fetlockice_plant_write_image, fetlockice_plants_start,
};
pub use plants_many::{
    fetlockice_plant_cut_many_plain, fetlockice_plant_cut_many_safe,
    fetlockice_plant_cut_many_sheet, fetlockice_plant_reasons_many_plain,
    fetlockice_plant_reasons_many_safe, fetlockice_plant_reasons_many_sheet,
};
pub use reasons::{fetlockice_reasons_plain, fetlockice_reasons_safe, fetlockice_reasons_sheet};
pub use texts::{
    fetlockice_clusters, fetlockice_decode, fetlockice_end_in_bytes, fetlockice_winners,
};
pub use words::{
    fetlockice_add, fetlockice_add_class, fetlockice_contains, fetlockice_contains_class,
    fetlockice_fresh, fetlockice_prefix_lengths, fetlockice_remove, fetlockice_word_count,
};
