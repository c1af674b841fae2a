//! What a card means, the bare card, and files taken whole from any card.

#![tactic(auto)]

mod bare;
mod cards;
mod image;
mod number;
mod stretch;
mod taking;

pub use bare::BareCard;
pub use cards::Card;
pub use image::FileImage;
pub use number::{EF_AD, EF_EHPLMN, EF_FPLMN, EF_IMSI, EF_LOCI, EF_OPLMN_W_ACT, EF_PLMN_W_ACT};
pub use stretch::{byte_at, read_in, write_in};
pub use taking::take_file;
