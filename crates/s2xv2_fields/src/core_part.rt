// The lines of the body's length and of the core's fields.
ghost use Rattle.std.specs.Prelude.{◌∷◌, take, drop};
ghost use Rattle.lines.specs.Out.{joined};
ghost use Rattle.s2xv2.specs.Table144c.{code_of};
ghost use Rattle.lines.specs.Line.{codes, line_of};
ghost use Rattle.lines.specs.Sheet.{Put};
ghost use Rattle.s2xv2_fields.specs.Fields.{core_lines, core_text};

use crate::parts::or_reserved;
use lines::sheet::Sheet;
use s2xv2::mode::S2Xv2Mode;
use s2xv2::record::S2Xv2SatelliteDeliverySystem;

// The mode, by its code.
fn mode(sheet: &mut Sheet, kind: S2Xv2Mode)
    ensures { Put sheet.old (line_of (codes "s2xv2_mode") (code_of kind)) sheet.new }
{
    sheet.line(b"s2xv2_mode", kind.to_u8());
}

// The body's length and the first fields, to multiple_input_stream_flag.
fn start(sheet: &mut Sheet, length: u64, r: S2Xv2SatelliteDeliverySystem)
    ensures { Put sheet.old (joined (line_of (codes "s2xv2") length ∷ take 3 (core_lines r))) sheet.new }
{
    let kind = r.s2xv2_mode;
    sheet.line(b"s2xv2", length);
    sheet.line(b"delivery_system_id", r.delivery_system_id);
    mode(sheet, kind);
    sheet.line(b"multiple_input_stream_flag", r.multiple_input_stream_flag);
}

// roll_off to ncr_version.
fn flags(sheet: &mut Sheet, r: S2Xv2SatelliteDeliverySystem)
    ensures { Put sheet.old (joined (take 4 (drop 3 (core_lines r)))) sheet.new }
{
    sheet.line(b"roll_off", r.roll_off);
    sheet.line(b"reserved_zero_future_use_2", r.reserved_zero_future_use_2);
    sheet.line(b"ncr_reference", r.ncr_reference);
    sheet.line(b"ncr_version", r.ncr_version);
}

// channel_bond to ts_gs_s2x_mode.
fn bond(sheet: &mut Sheet, r: S2Xv2SatelliteDeliverySystem)
    ensures { Put sheet.old (joined (take 4 (drop 7 (core_lines r)))) sheet.new }
{
    sheet.line(b"channel_bond", r.channel_bond);
    sheet.line(b"polarization", r.polarization);
    or_reserved(
        sheet,
        b"scrambling_sequence_selector",
        r.scrambling_sequence_selector,
        b"reserved_zero_future_use_1",
        r.reserved_zero_future_use_1,
    );
    sheet.line(b"ts_gs_s2x_mode", r.ts_gs_s2x_mode);
}

// receiver_profiles to symbol_rate.
fn carrier(sheet: &mut Sheet, r: S2Xv2SatelliteDeliverySystem)
    ensures { Put sheet.old (joined (drop 11 (core_lines r))) sheet.new }
{
    sheet.line(b"receiver_profiles", r.receiver_profiles);
    sheet.line(b"satellite_id", r.satellite_id);
    sheet.line(b"frequency", r.frequency);
    sheet.line(b"symbol_rate", r.symbol_rate);
}

// The lines of the body's length and of the core.
pub fn core(sheet: &mut Sheet, length: u64, r: S2Xv2SatelliteDeliverySystem)
    ensures { Put sheet.old (core_text length r) sheet.new }
{
    start(sheet, length, r);
    flags(sheet, r);
    bond(sheet, r);
    carrier(sheet, r);
}
