// A file's descriptor and its extensions, for C.
ghost use Rattle.outcome.specs.Outcome.{Answers};
ghost use Rattle.descriptor.specs.Answers.{validation_of, extension_of};
ghost use Rattle.descriptor.specs.Bounds.{Narrow};
ghost use Rattle.classic.specs.Answers.{descriptor_from, descriptor_for, extension_for};

use super::answers::{ClassicDescriptor, ClassicExtension};
use super::tables::aex_numbers;
use descriptor::inner::admit;
use descriptor::{Validated, ValidatedCase, extension_of, validated_case};
use geometry::ExtensionNumber;

// A descriptor from a case and the addresses. It asks that the numbers fit 32 bits, which a `From` could not ask.
fn descriptor_from(case: ValidatedCase, aex: [u64; 16]) -> ClassicDescriptor
    requires { Narrow case.numbers }
    ensures { Answers (descriptor_from case aex) result }
{
    let d = case.numbers;
    ClassicDescriptor {
        refusal: case.refusal,
        order: d.order.0 as u32,
        reclen: d.reclen as u32,
        kind: d.kind as u32,
        vind: d.vind as u32,
        lind: d.lind as u32,
        flags: d.flags as u32,
        xnext: d.xnext.0,
        nextrec: d.nextrec.0,
        nextword: d.nextword.0 as u32,
        lex1: d.lex1 as u32,
        nex: d.nex as u32,
        gex: d.gex as u32,
        aex,
    }
}

// The file's descriptor, or the refusal.
pub fn classic_validate(file: &[u8]) -> ClassicDescriptor
    ensures { Answers (descriptor_for (validation_of file.now)) result }
{
    let mut totals = [0u64; 16];
    let case = admit(file, &mut totals);
    let Validated::Numbers(d) = case else {
        return descriptor_from(validated_case(case), [0u64; 16]);
    };
    descriptor_from(validated_case(case), aex_numbers(d.order, file, d.nex))
}

// An extension by its number, or the refusal.
pub fn classic_extension_of(file: &[u8], number: u64) -> ClassicExtension
    ensures { Answers (extension_for (extension_of file.now (record { 0 = number }))) result }
{
    extension_of(file, ExtensionNumber(number)).into()
}
