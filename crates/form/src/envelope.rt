// The bytes around a body, and those of a stuffing descriptor. The envelope has no public call of its own.

// descriptor_tag of the extension descriptor.
pub const TAG: u8 = 0x7F;

// descriptor_tag_extension of S2Xv2.
pub const EXTENSION: u8 = 0x24;

// descriptor_tag of a stuffing descriptor.
pub const STUFFING_TAG: u8 = 0x42;

// What fills a stuffing descriptor.
pub const FILLER: u8 = 0xFF;
