// The cases with a name: each row of the table of bodies at the edges, the errors that look right, and the edges of both
// lists.
use crate::body::Made;
use crate::fields::{
    BLOCK_RESERVED_2, BONDS, CHANNEL_BOND, HAS_BLOCK, HAS_INDEX, HAS_PLAN, HAS_SFFI, HAS_TIMESLICE,
    INDEX, IS_RESERVED, MODE, PAYLOAD_INDEX, PILOTS, POLARIZATION, POSTAMBLE, REFERENCE_INDEX,
    RESERVED_1, RESERVED_4, RESERVED_6, RESERVED_7, ROLL_OFF, SATELLITE_ID, SELECTOR, SFFI,
    STREAM_FLAG,
};
use crate::values::Room::{Exact, Nothing, OneLess};
use crate::values::{Case, Room, plain};

// A body's length, and the bytes of it that are not 0, each behind its place.
#[derive(Clone, Copy)]
pub(crate) struct Body(usize, &'static [(usize, u8)]);

pub(crate) const BODIES: [Body; 28] = [
    // The rows of the table, in its order.
    Body(0, &[]), // 1: no byte
    Body(18, &[]), // 2: the core
    Body(19, &[]), // 3: a tail of one byte
    Body(18, &[(4, 8)]), // 4: no stream id
    Body(20, &[(4, 16), (6, 128)]), // 5: a scrambling part cut
    Body(18, &[(6, 128)]), // 6: the reserved bit of mode 0
    Body(18, &[(4, 32)]), // 7: no timeslice
    Body(23, &[(5, 4), (18, 1)]), // 8: one id of two
    Body(23, &[(5, 4)]), // 9: one id
    Body(18, &[(5, 8)]), // 10: bond 2 has no ids
    Body(25, &[(4, 64)]), // 11: a superframe block cut
    Body(26, &[(4, 64), (19, 64)]), // 12: no plan id
    Body(29, &[(4, 64), (19, 64)]), // 13: a block with a plan id cut
    // What tells a right reader from one that errs: no index in mode 4, no ids at bond 3.
    Body(26, &[(4, 64), (6, 128)]), // 14: mode 4 has no index
    Body(18, &[(5, 12)]), // 15: bond 3 has no ids
    // The ends of the sizes.
    Body(17, &[]), // 16: a core cut
    Body(30, &[(4, 64), (19, 64)]), // 17: a block with a plan id
    Body(27, &[(5, 4), (18, 1)]), // 18: two ids
    Body(41, &[(4, 88), (5, 4), (20, 1), (30, 64)]), // 19: all parts that a body can have in mode 5
    Body(40, &[(4, 88), (5, 4), (20, 1), (30, 64)]), // 20: the same, cut
    Body(4096, &[]), // 21: the longest
    Body(4097, &[]), // 22: too long
    // What the least total counts of a body that is cut.
    Body(17, &[(4, 80)]), // 23: a core cut, whatever it says
    Body(18, &[(4, 80)]), // 24: no timeslice, and a block behind it
    Body(18, &[(5, 4)]), // 25: no bond header: one id
    Body(19, &[(5, 4), (18, 1)]), // 26: a bond header alone: two ids
    Body(18, &[(4, 88), (5, 4)]), // 27: no part of mode 5 behind the core
    Body(25, &[(4, 64), (19, 64)]), // 28: a block cut whose plan id is not counted yet
];

// A mode, whether the fields are at their largest, the tail's length, the rule of the buffer, and fields that are set anew, each before its
// value.
#[derive(Clone, Copy)]
pub(crate) struct Record(u8, bool, usize, Room, &'static [(usize, u32)]);

pub(crate) const RECORDS: [Record; 43] = [
    // The table, and the errors that look right: a value that is masked, a refusal in the middle of the stores.
    Record(0, false, 0, Exact, &[(SATELLITE_ID, 16_777_216)]), // 1: satellite_id of 25 bits
    Record(0, false, 0, Exact, &[(SATELLITE_ID, 16_777_215)]), // 2: satellite_id of 24 bits
    Record(1, true, 0, Exact, &[(INDEX, 262_144)]), // 3: the index
    Record(5, true, 0, Exact, &[(POSTAMBLE, 8)]), // 4: postamble_pli, the last place
    Record(0, false, 0, Exact, &[(CHANNEL_BOND, 2)]), // 5: bond 2
    // List B, with what stands behind the first place in its order.
    Record(0, false, 0, Exact, &[(MODE, 16)]), // 6: the mode's code
    Record(0, false, 0, Exact, &[(CHANNEL_BOND, 5)]), // 7: channel_bond
    Record(0, false, 0, Exact, &[(POLARIZATION, 4), (RESERVED_1, 2)]), // 8: polarization, reserved_1
    Record(0, false, 0, Exact, &[(RESERVED_1, 2)]), // 9: reserved_1
    Record(1, true, 0, Exact, &[(RESERVED_1, 2)]), // 10: reserved_1 where the selector stands
    Record(1, true, 0, Exact, &[(HAS_INDEX, 0), (RESERVED_6, 64)]), // 11: no index, reserved_6
    Record(1, true, 0, Exact, &[(INDEX, 262_144), (RESERVED_6, 64)]), // 12: the index, reserved_6
    Record(1, true, 0, Exact, &[(RESERVED_6, 64)]), // 13: reserved_6
    Record(0, false, 0, Exact, &[(CHANNEL_BOND, 1)]), // 14: no ids
    Record(0, false, 0, Exact, &[(CHANNEL_BOND, 1), (BONDS, 3)]), // 15: three ids
    Record(0, false, 0, OneLess, &[(CHANNEL_BOND, 1), (BONDS, 255)]), // 16: 255 ids, a buffer one byte too small
    Record(0, false, 0, Exact, &[(CHANNEL_BOND, 1), (BONDS, 255)]), // 17: 255 ids
    Record(0, false, 0, Exact, &[(CHANNEL_BOND, 1), (RESERVED_7, 128)]), // 18: no ids, reserved_7
    Record(
        0,
        false,
        0,
        Exact,
        &[(CHANNEL_BOND, 1), (BONDS, 1), (RESERVED_7, 128)],
    ), // 19: reserved_7
    Record(
        4,
        true,
        0,
        Exact,
        &[
            (REFERENCE_INDEX, 1_048_576),
            (PAYLOAD_INDEX, 1_048_576),
            (BLOCK_RESERVED_2, 4),
        ],
    ), // 20: both scrambling indices, the block's reserved_2
    Record(
        4,
        true,
        0,
        Exact,
        &[(PAYLOAD_INDEX, 1_048_576), (BLOCK_RESERVED_2, 4)],
    ), // 21: the payload's index, the block's reserved_2
    Record(4, true, 0, Exact, &[(BLOCK_RESERVED_2, 4), (SFFI, 16)]), // 22: the block's reserved_2, sffi
    Record(4, true, 0, Exact, &[(HAS_SFFI, 0), (HAS_PLAN, 0)]), // 23: no sffi, no plan id
    Record(4, false, 0, Exact, &[(RESERVED_4, 16)]), // 24: reserved_4
    Record(4, true, 0, Exact, &[(HAS_PLAN, 0), (PILOTS, 32)]), // 25: no plan id, pilots
    Record(5, true, 0, Exact, &[(PILOTS, 32), (POSTAMBLE, 8)]), // 26: pilots, postamble_pli
    Record(5, true, 3, Exact, &[]), // 27: all of mode 5, and a tail
    // List A.
    Record(1, false, 0, Exact, &[(IS_RESERVED, 1)]), // 28: `Reserved` of a code with a name
    Record(0, false, 0, Exact, &[(STREAM_FLAG, 1)]), // 29: no stream id
    Record(1, false, 0, Exact, &[(SELECTOR, 0)]), // 30: no selector
    Record(0, false, 0, Exact, &[(SELECTOR, 1)]), // 31: a selector in mode 0
    Record(1, false, 0, Exact, &[(HAS_INDEX, 1)]), // 32: an index though the selector is clear
    Record(2, false, 0, Exact, &[(HAS_TIMESLICE, 0)]), // 33: no timeslice
    Record(0, false, 0, Exact, &[(CHANNEL_BOND, 5), (BONDS, 1)]), // 34: an id without bonds
    Record(4, false, 0, Exact, &[(HAS_BLOCK, 0)]), // 35: no superframe block
    Record(4, false, 0, Exact, &[(HAS_SFFI, 1)]), // 36: an sffi though its selector is clear
    Record(4, false, 0, Exact, &[(HAS_PLAN, 1)]), // 37: a plan id though its selector is clear
    Record(0, false, 0, Exact, &[(HAS_PLAN, 1)]), // 38: a plan id without a block
    // The limit, and the room.
    Record(0, false, 4078, Exact, &[]), // 39: the longest
    Record(0, false, 4079, Exact, &[]), // 40: too long
    Record(0, false, 65_516, Exact, &[]), // 41: of 65,534 bytes
    Record(0, false, 65_518, Exact, &[]), // 42: of 65,536 bytes
    Record(0, false, 0, Nothing, &[(ROLL_OFF, 8)]), // 43: roll_off, and no room
];

impl Body {
    // Lays the body out, with one byte to spare.
    pub(crate) fn make(self, body: &mut [u8]) -> Made {
        body.fill(0);
        for (at, byte) in self.1 {
            if let Some(b) = body.get_mut(*at) {
                *b = *byte;
            }
        }
        Made {
            length: self.0,
            spare: 1,
        }
    }
}

impl Record {
    // The record's case.
    pub(crate) fn case(self) -> Case {
        let Record(mode, full, tail, room, sets) = self;
        let mut values = plain(mode, full);
        for (field, value) in sets {
            if let Some(v) = values.get_mut(*field) {
                *v = *value;
            }
        }
        Case { values, tail, room }
    }
}
