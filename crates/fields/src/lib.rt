// Writing the fields of the first record.
//
// The words stand where `layout` names them. Nothing is refused here: a caller knows that the numbers fit their words
// and that the record lies within the slice.
#![tactic(auto)]

ghost use Rattle.std.specs.Prelude.{◌+◌, ◌*◌, ◌-◌, ◌^◌, ◌≤◌, ◌<◌, length};
ghost use mir.Val.{bytes};
ghost use Rattle.outcome.specs.Outcome.{Leaves};
ghost use Rattle.image.specs.Image.{splice, zeros};
ghost use Rattle.image.specs.Writes.{writes};
ghost use Rattle.words.specs.Word.{numeral};
ghost use Rattle.geometry.specs.Units.{offset_of, first_record_offset_of};
ghost use Rattle.layout.specs.FirstRecordWords.{aex_word};
ghost use Rattle.descriptor.specs.Bounds.{Narrow};
ghost use Rattle.fields.specs.FieldWrites.{setting_writes, count_writes, growth_writes};

use descriptor::DescriptorNumbers;
use geometry::{WordNumber, byte_offset, first_record_offset};
use layout::file_code::file_code;
use layout::first_record;
use words::{ByteOrder, Integer};

// Writes an integer at a word of the first record, and the words behind it that it fills.
pub fn put_field<T: Integer>(order: ByteOrder, file: &mut [u8], word: WordNumber, value: T)
    requires { (1 ≤ word.0) × (word.0 ≤ 4096) × (4 * (word.0 - 1) + bytes T.width ≤ length file.old) }
    ensures { Leaves (splice file.old (first_record_offset_of word) (numeral order (bytes T.width) (T.bits value))) file.new }
{
    words::write(order, file, first_record_offset(word), value)
}

// Writes the code of the order, and the settings that come first.
pub fn put_settings(file: &mut [u8], d: DescriptorNumbers)
    requires { Narrow d × (64 ≤ length file.old) }
    ensures { Leaves (writes file.old (setting_writes d)) file.new }
{
    let code = file_code(d.order);
    image::put(file, first_record_offset(first_record::CODE), &code);
    put_field(d.order, file, first_record::RECLEN, d.reclen as u32);
    put_field(d.order, file, first_record::KIND, d.kind as u32);
    put_field(d.order, file, first_record::VIND, d.vind as u32);
    put_field(d.order, file, first_record::LIND, d.lind as u32);
    put_field(d.order, file, first_record::FLAGS, d.flags as u32);
}

// Writes how far the file is filled.
pub fn put_counts(file: &mut [u8], d: DescriptorNumbers)
    requires { (d.nextword.0 < 2 ^ 32) × (64 ≤ length file.old) }
    ensures { Leaves (writes file.old (count_writes d)) file.new }
{
    put_field(d.order, file, first_record::XNEXT, d.xnext.0);
    put_field(d.order, file, first_record::NEXTREC, d.nextrec.0);
    put_field(d.order, file, first_record::NEXTWORD, d.nextword.0 as u32);
}

// Makes the words of the first record behind the growth zero.
fn clear_rest(file: &mut [u8], reclen: u64)
    requires { (16 ≤ reclen) × (reclen ≤ 4096) × (4 * reclen ≤ length file.old) }
    ensures { Leaves (splice file.old (first_record_offset_of (aex_word 0)) (zeros (offset_of (reclen - 14)))) file.new }
{
    image::zero(
        file,
        first_record_offset(first_record::AEX),
        byte_offset(reclen - 14),
    )
}

// Writes the growth, and zeros from there to the record's end.
pub fn put_growth(file: &mut [u8], d: DescriptorNumbers)
    requires { Narrow d × (16 ≤ d.reclen) × (d.reclen ≤ 4096) × (4 * d.reclen ≤ length file.old) }
    ensures { Leaves (writes file.old (growth_writes d)) file.new }
{
    put_field(d.order, file, first_record::LEX1, d.lex1 as u32);
    put_field(d.order, file, first_record::NEX, d.nex as u32);
    put_field(d.order, file, first_record::GEX, d.gex as u32);
    clear_rest(file, d.reclen);
}
