//! The bytes of the link, each with document 01's words, and the other fixed values of its strings.
use status::words::Word;

/// What is offered, and what answers.
pub const ACK: u8 = 0x06; // "A good string offers ACK #06."; "Byte #06 accepts"

pub const NACK: u8 = 0x15; // "NACK #15 is ignored. Any other first byte is answered by NACK"

pub const GO: u8 = 0x47; // "A write offers GO"

pub const END_OF_RECORD: u8 = 0x45; // EOR: "Read, write and check bytes offer EOR when a result came or GO failed"

/// Leads and lengths of the strings from the host.
pub const LOAD_LEAD: u8 = 0x62; // "a first byte #62 (load, 4 bytes) .."

pub const STORE_LEAD: u8 = 0x64; // ".. or #64 (store, 8) starts a string"

pub const LOAD_LENGTH: u8 = 4; // "Load: lead, address, unused, check."

pub const STORE_LENGTH: u8 = 8; // "Store: lead, address, four operand bytes (high first), unused, check."

/// Leads of the strings to the host.
pub const LOAD_REPLY: u8 = 0x66; // "Leads: load reply #66, .."

pub const SECONDARY_UPDATE: u8 = 0x68; // ".. secondary update #68, .."

pub const INTERRUPT: u8 = 0x69; // ".. interrupt #69."

/// The most noes that a send has had while it goes on: five sends in all.
pub const MOST_NOES: u8 = 4; // "noes so far 0-4"; "After the fifth no .. the send is given up"

/// The word of load 0, 001's device I.D.
pub const DEVICE_ID: Word = Word {
    b0: 0x0A, // "0 #0A 20 00 00"
    b1: 0x20,
    b2: 0x00,
    b3: 0x00,
};
