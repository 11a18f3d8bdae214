// The lines of the parts that may be there between the core and the superframe block.
ghost use Rattle.lines.specs.Line.{codes, line_of};
ghost use Rattle.lines.specs.Sheet.{Put};
ghost use Rattle.s2xv2_fields.specs.Fields.{line_if, line_or, scrambling_of, second_of, bonds_of, parts_text};

use lines::line::Number;
use lines::sheet::Sheet;
use s2xv2::record::S2Xv2SatelliteDeliverySystem;

// A part that is one number, where it is there.
pub(crate) fn part<N: Number>(sheet: &mut Sheet, name: &[u8], v: Option<N>)
    ensures { Put sheet.old (line_if N.number_of name.now v) sheet.new }
{
    if let Some(value) = v {
        sheet.line(name, value);
    }
}

// A value that may be absent, or what is reserved in its place, each under its own name.
pub(crate) fn or_reserved<N: Number>(
    sheet: &mut Sheet,
    name: &[u8],
    v: Option<N>,
    other: &[u8],
    reserved: u8,
)
    ensures { Put sheet.old (line_or N.number_of name.now v other.now reserved) sheet.new }
{
    match v {
        Some(value) => sheet.line(name, value),
        None => sheet.line(other, reserved),
    }
}

// The scrambling index and what is reserved before it, where they are there.
fn scrambling(sheet: &mut Sheet, index: Option<u32>, reserved: u8)
    ensures { Put sheet.old (scrambling_of index reserved) sheet.new }
{
    if let Some(value) = index {
        sheet.line(b"reserved_zero_future_use_6", reserved);
        sheet.line(b"scrambling_sequence_index", value);
    }
}

// One id.
fn id(sheet: &mut Sheet, v: u32)
    ensures { Put sheet.old (line_of (codes "secondary_delivery_system_id") v) sheet.new }
{
    sheet.line(b"secondary_delivery_system_id", v);
}

// The second id, unless the count is 1.
fn second(sheet: &mut Sheet, count: u8, v: u32)
    ensures { Put sheet.old (second_of count v) sheet.new }
{
    if count != 1 {
        id(sheet, v);
    }
}

// Nothing for no ids; the count itself has no line.
fn bonds(sheet: &mut Sheet, count: u8, reserved: u8, a: u32, b: u32)
    ensures { Put sheet.old (bonds_of count reserved a b) sheet.new }
{
    if count != 0 {
        sheet.line(b"reserved_zero_future_use_7", reserved);
        id(sheet, a);
        second(sheet, count, b);
    }
}

// The lines of the parts between the core and the superframe block.
pub fn parts(sheet: &mut Sheet, r: S2Xv2SatelliteDeliverySystem)
    ensures { Put sheet.old (parts_text r) sheet.new }
{
    let stream = r.input_stream_identifier;
    let index = r.scrambling_sequence_index;
    let timeslice = r.timeslice_number;
    let ids = r.secondary_delivery_system_ids;
    part(sheet, b"input_stream_identifier", stream);
    scrambling(sheet, index, r.reserved_zero_future_use_6);
    part(sheet, b"timeslice_number", timeslice);
    bonds(
        sheet,
        r.num_channel_bonds,
        r.reserved_zero_future_use_7,
        ids[0],
        ids[1],
    );
}
