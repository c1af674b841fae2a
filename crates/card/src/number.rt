//! The numbers of the card's files that the selector knows, by their names in 3GPP TS 31.102.

/// The subscriber's IMSI.
pub const EF_IMSI: u16 = 0x6F07;

/// Administrative data, with the length of the MNC.
pub const EF_AD: u16 = 0x6FAD;

/// The forbidden list.
pub const EF_FPLMN: u16 = 0x6F7B;

/// The location, with the registered code.
pub const EF_LOCI: u16 = 0x6F7E;

/// The home list.
pub const EF_EHPLMN: u16 = 0x6FD9;

/// The user list, with technologies.
pub const EF_PLMN_W_ACT: u16 = 0x6F60;

/// The operator list, with technologies.
pub const EF_OPLMN_W_ACT: u16 = 0x6F61;
