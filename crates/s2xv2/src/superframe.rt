// The superframe block, which Table 144b has in modes 4 and 5.
ghost use Rattle.std.specs.Prelude.{◌≡◌};
ghost use Rattle.s2xv2.specs.Default.{default_superframe};
ghost use Rattle.s2xv2.specs.Encode.{block_length};

// The fields of the block in wire order.
#[derive(Clone, Copy, PartialEq, Eq)]
pub struct S2Xv2Superframe {
    // SOSF_WH_sequence_number, 8 bits.
    pub sosf_wh_sequence_number: u8,
    // SFFI_selector: whether `sffi` is there.
    pub sffi_selector: bool,
    // beam_hopping_time_plan_selector: whether `beamhopping_time_plan_id` is there.
    pub beam_hopping_time_plan_selector: bool,
    // The 2 bits behind the two selectors.
    pub reserved_zero_future_use_2: u8,
    // reference_scrambling_index, 20 bits.
    pub reference_scrambling_index: u32,
    // SFFI, 4 bits.
    pub sffi: Option<u8>,
    // The 4 bits in the place of SFFI where its selector is clear.
    pub reserved_zero_future_use_4: u8,
    // payload_scrambling_index, 20 bits.
    pub payload_scrambling_index: u32,
    // beamhopping_time_plan_id, 32 bits.
    pub beamhopping_time_plan_id: Option<u32>,
    // superframe_pilots_WH_sequence_number, 5 bits.
    pub superframe_pilots_wh_sequence_number: u8,
    // postamble_PLI, 3 bits.
    pub postamble_pli: u8,
}

impl Default for S2Xv2Superframe {
    ghost is_default = { λ f. f ≡ default_superframe };

    // All fields 0, clear or absent.
    fn default() -> S2Xv2Superframe {
        S2Xv2Superframe {
            sosf_wh_sequence_number: 0,
            sffi_selector: false,
            beam_hopping_time_plan_selector: false,
            reserved_zero_future_use_2: 0,
            reference_scrambling_index: 0,
            sffi: None,
            reserved_zero_future_use_4: 0,
            payload_scrambling_index: 0,
            beamhopping_time_plan_id: None,
            superframe_pilots_wh_sequence_number: 0,
            postamble_pli: 0,
        }
    }
}

impl S2Xv2Superframe {
    // How many bytes the block takes: 8, or 12 with a plan id.
    pub fn serialized_len(self) -> usize
        ensures { result ≡ block_length self }
    {
        if self.beam_hopping_time_plan_selector {
            12
        } else {
            8
        }
    }
}
