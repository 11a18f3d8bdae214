// The core of a body, stored into a lent record.
ghost use Rattle.std.specs.Prelude.{◌≡◌, ◌≤◌, length};
ghost use Rattle.s2xv2_reader.specs.Stored.{core_numbers, field_bytes, asked_bytes};

use crate::bytes::{be24, be32};
use s2xv2_plain::asked::asked;
use s2xv2_plain::places;
use wire::field::picked;

// The numbers of the core.
pub(crate) fn put_numbers(s: &[u8], w: &mut [u32; 10])
    requires { 18 ≤ length s.now }
    ensures { w.new ≡ core_numbers w.old s.now }
{
    w[places::DELIVERY_SYSTEM_ID] = be32(s, 0);
    w[places::SATELLITE_ID] = be24(s, 7);
    w[places::FREQUENCY] = be32(s, 10);
    w[places::SYMBOL_RATE] = be32(s, 14);
}

// The fields of bytes 4, 5 and 6 that mean the same in every mode.
pub(crate) fn put_fields(v4: u8, v5: u8, v6: u8, b: &mut [u8; 36])
    ensures { b.new ≡ field_bytes b.old v4 v5 v6 }
{
    b[places::RESERVED_ZERO_FUTURE_USE_2] = v5 / 64 % 4;
    b[places::NCR_REFERENCE] = v5 / 32 % 2;
    b[places::NCR_VERSION] = v5 / 16 % 2;
    b[places::CHANNEL_BOND] = v5 / 4 % 4;
    b[places::TS_GS_S2X_MODE] = v6 / 32 % 4;
    b[places::RECEIVER_PROFILES] = v6 % 32;
    b[places::POLARIZATION] = v5 % 4;
    b[places::S2XV2_MODE] = v4 / 16 % 16;
    b[places::ROLL_OFF] = v4 % 8;
}

// What is there, what the mode of the code `m` asks for, and the top bit of byte 6, which is the selector or reserved.
pub(crate) fn put_asked(m: u8, v4: u8, v6: u8, b: &mut [u8; 36])
    ensures { b.new ≡ asked_bytes b.old m v4 v6 }
{
    let asked = asked(m).to_le_bytes();
    let selector = asked[1];
    let top = v6 / 128 % 2;
    b[places::MULTIPLE_INPUT_STREAM_FLAG] = v4 / 8 % 2;
    b[places::HAS_INPUT_STREAM_IDENTIFIER] = v4 / 8 % 2;
    b[places::MODE_IS_RESERVED] = asked[0];
    b[places::HAS_TIMESLICE_NUMBER] = asked[2];
    b[places::HAS_SUPERFRAME] = asked[3];
    b[places::HAS_SCRAMBLING_SEQUENCE_SELECTOR] = selector;
    b[places::RESERVED_ZERO_FUTURE_USE_1] = picked(selector, 0, top);
    b[places::SCRAMBLING_SEQUENCE_SELECTOR] = picked(selector, top, 0);
    b[places::HAS_SCRAMBLING_SEQUENCE_INDEX] = picked(selector, top, 0);
}
