//! The four needed files, on a bare card and in a card image.
use card::BareCard;
use packed_card::Entry;

const IMSI: [u8; 9] = [0x08, 0x09, 0x10, 0x10, 0x10, 0x32, 0x54, 0x76, 0x98];

const ADMIN: [u8; 4] = [0, 0, 0, 2];

pub fn bare_card() -> BareCard {
    BareCard::new(IMSI, ADMIN, [0xFF; 12], [0xFF; 11])
}

/// The files one after the other: IMSI, administrative data, then bytes FF for the forbidden list and the location.
pub fn image() -> [u8; 36] {
    let mut bytes = [0xFF; 36];
    bytes[..9].copy_from_slice(&IMSI);
    bytes[9..13].copy_from_slice(&ADMIN);
    bytes
}

pub fn directory() -> [Entry; 4] {
    [
        Entry {
            file: 0x6F07,
            start: 0,
            length: 9,
        },
        Entry {
            file: 0x6FAD,
            start: 9,
            length: 4,
        },
        Entry {
            file: 0x6F7B,
            start: 13,
            length: 12,
        },
        Entry {
            file: 0x6F7E,
            start: 25,
            length: 11,
        },
    ]
}
