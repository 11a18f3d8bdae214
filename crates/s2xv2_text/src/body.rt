// The dump of a body.
ghost use Rattle.answers.specs.Answer.{numbers as Answer·numbers};
ghost use Rattle.lines.specs.Out.{◌from◌, Wrote};
ghost use Rattle.lines.specs.Sheet.{Put};
ghost use Rattle.lines.specs.Line.{words_of, refused_of};
ghost use Rattle.s2xv2_text.specs.Dump.{body_of, dump_of};

use answers::answer::Refusal;
use lines::sheet::Sheet;
use s2xv2::record::S2Xv2SatelliteDeliverySystem;
use s2xv2_fields::core_part::core;
use s2xv2_fields::parts::parts;
use s2xv2_fields::superframe::superframe;

// A refusal's number, and the numbers that it tells.
fn numbers(sheet: &mut Sheet, why: Refusal)
    ensures { Put sheet.old (words_of (Answer·numbers why)) sheet.new }
{
    let told = why.told();
    let count = told.count;
    let numbers = told.numbers;
    sheet.words(&numbers[0..count]);
}

// The one line of a body that is refused.
fn refused(sheet: &mut Sheet, why: Refusal)
    ensures { Put sheet.old (refused_of (Answer·numbers why)) sheet.new }
{
    sheet.copy(b"refused");
    numbers(sheet, why);
    sheet.put(b'\n');
}

// The lines of a body that is accepted.
fn accepted(sheet: &mut Sheet, length: u64, r: S2Xv2SatelliteDeliverySystem, tail: u64)
    ensures { Put sheet.old (body_of length r tail) sheet.new }
{
    let block = r.superframe;
    core(sheet, length, r);
    parts(sheet, r);
    superframe(sheet, block);
    sheet.line(b"reserved_tail", tail);
}

// The text of a body.
fn text(sheet: &mut Sheet, sel: &[u8])
    ensures { Put sheet.old (dump_of sel.now) sheet.new }
{
    match s2xv2_reader::parse(sel) {
        Ok(parsed) => accepted(
            sheet,
            sel.len() as u64,
            parsed.body,
            (sel.len() - parsed.tail_start) as u64,
        ),
        Err(why) => refused(sheet, why),
    }
}

// The text of a body from the start of the buffer on, as far as the buffer reaches.
pub(crate) fn text_of(sel: &[u8], out: &mut [u8]) -> usize
    ensures { Wrote (out.old from 0) (dump_of sel.now) (out.new from result) }
{
    let mut sheet = Sheet::new(out);
    text(&mut sheet, sel);
    sheet.at()
}
