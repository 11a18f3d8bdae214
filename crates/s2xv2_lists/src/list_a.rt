// List A: a record that contradicts itself.
ghost use Rattle.std.specs.Prelude.{◌≡◌, ◌==◌, nat_lt, is_some};
ghost use Rattle.wire.specs.Flags.{and, not, differ};
ghost use Rattle.answers.specs.Tests.{place_in};
ghost use Rattle.s2xv2.specs.ListA.{misnamed, in_superframe, inconsistency};

use crate::list_b::first_from;
use s2xv2::mode::S2Xv2Mode;
use s2xv2::record::S2Xv2SatelliteDeliverySystem;
use s2xv2::superframe::S2Xv2Superframe;

// `Reserved` holds a code that has a variant of its own.
fn is_misnamed(mode: S2Xv2Mode) -> bool
    ensures { result ≡ misnamed mode }
{
    match mode {
        S2Xv2Mode::Reserved(v) => v < 6,
        _ => false,
    }
}

// A value is there though it should not be, or is not though it should: `!=`, by the word of the definition.
fn differs(there: bool, due: bool) -> bool
    ensures { result ≡ differ there due }
{
    there != due
}

// Bonds are counted though channel_bond does not announce them.
fn bonds_stray(count: u8, bond: u8) -> bool
    ensures { result ≡ and (nat_lt 0 count) (not (bond == 1)) }
{
    (0 < count) & (bond != 1)
}

// SFFI is there though its selector is not set. This and the next look at other fields.
fn sffi_stray(superframe: Option<S2Xv2Superframe>) -> bool
    ensures { result ≡ in_superframe (λ f. and (is_some f.sffi) (not f.sffi_selector)) superframe }
{
    superframe.is_some_and(|f| f.sffi.is_some() & !f.sffi_selector)
}

// The same of the plan id.
fn plan_stray(superframe: Option<S2Xv2Superframe>) -> bool
    ensures { result ≡ in_superframe (λ f. and (is_some f.beamhopping_time_plan_id) (not f.beam_hopping_time_plan_selector)) superframe }
{
    superframe.is_some_and(|f| {
        f.beamhopping_time_plan_id.is_some() & !f.beam_hopping_time_plan_selector
    })
}

// The first place of list A that holds of the record; none does of a consistent record.
pub fn inconsistency(r: S2Xv2SatelliteDeliverySystem) -> Option<u8>
    ensures { result ≡ place_in (inconsistency r) }
{
    let row = r.s2xv2_mode.row();
    let selected = r.scrambling_sequence_selector.unwrap_or(false);
    let tests = [
        is_misnamed(r.s2xv2_mode),
        differs(
            r.input_stream_identifier.is_some(),
            r.multiple_input_stream_flag,
        ),
        differs(r.scrambling_sequence_selector.is_some(), row.selector),
        r.scrambling_sequence_index.is_some() & !selected,
        differs(r.timeslice_number.is_some(), row.timeslice),
        bonds_stray(r.num_channel_bonds, r.channel_bond),
        differs(r.superframe.is_some(), row.superframe),
        sffi_stray(r.superframe),
        plan_stray(r.superframe),
    ];
    first_from(1, &tests)
}
