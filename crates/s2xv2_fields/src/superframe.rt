// The lines of the superframe block.
ghost use Rattle.std.specs.Prelude.{take, drop};
ghost use Rattle.lines.specs.Out.{joined};
ghost use Rattle.lines.specs.Sheet.{Put};
ghost use Rattle.s2xv2_fields.specs.Fields.{block_lines, superframe_text};

use crate::parts::{or_reserved, part};
use lines::sheet::Sheet;
use s2xv2::superframe::S2Xv2Superframe;

// SOSF_WH to what is reserved behind the selectors.
fn block_start(sheet: &mut Sheet, f: S2Xv2Superframe)
    ensures { Put sheet.old (joined (take 4 (block_lines f))) sheet.new }
{
    sheet.line(b"sosf_wh_sequence_number", f.sosf_wh_sequence_number);
    sheet.line(b"sffi_selector", f.sffi_selector);
    sheet.line(
        b"beam_hopping_time_plan_selector",
        f.beam_hopping_time_plan_selector,
    );
    sheet.line(b"reserved_zero_future_use_2", f.reserved_zero_future_use_2);
}

// The reference index to the plan id.
fn block_middle(sheet: &mut Sheet, f: S2Xv2Superframe)
    ensures { Put sheet.old (joined (take 4 (drop 4 (block_lines f)))) sheet.new }
{
    let sffi = f.sffi;
    let id = f.beamhopping_time_plan_id;
    sheet.line(b"reference_scrambling_index", f.reference_scrambling_index);
    or_reserved(
        sheet,
        b"sffi",
        sffi,
        b"reserved_zero_future_use_4",
        f.reserved_zero_future_use_4,
    );
    sheet.line(b"payload_scrambling_index", f.payload_scrambling_index);
    part(sheet, b"beamhopping_time_plan_id", id);
}

// The last byte.
fn block_end(sheet: &mut Sheet, f: S2Xv2Superframe)
    ensures { Put sheet.old (joined (drop 8 (block_lines f))) sheet.new }
{
    sheet.line(
        b"superframe_pilots_wh_sequence_number",
        f.superframe_pilots_wh_sequence_number,
    );
    sheet.line(b"postamble_pli", f.postamble_pli);
}

// The lines of a block.
fn block(sheet: &mut Sheet, f: S2Xv2Superframe)
    ensures { Put sheet.old (joined (block_lines f)) sheet.new }
{
    block_start(sheet, f);
    block_middle(sheet, f);
    block_end(sheet, f);
}

// The lines of a block that may be absent: none then.
pub fn superframe(sheet: &mut Sheet, f: Option<S2Xv2Superframe>)
    ensures { Put sheet.old (superframe_text f) sheet.new }
{
    if let Some(v) = f {
        block(sheet, v);
    }
}
