// The calls that read the first record alone: a line of the call, the case's name and the answer.
use super::printing::{Case, Out};
use classic::{
    DescriptorNumbers, ExtensionNumber, OpenFileAnswer, RecordNumber, Validated, extension_of,
    validate,
};
use std::io;

// Validates a file: admitted, or the refusal.
pub(crate) fn validated(case: Case, file: &[u8]) -> io::Result<()> {
    case.begin("validate")?;
    match validate(file).numbers {
        Validated::Numbers(_) => println!(case.out; " admitted"),
        Validated::Refused(refusal) => println!(case.out; " refused {refusal}"),
    }
}

// Writes the numbers of a descriptor and its 16 addresses.
fn print_numbers(out: Out, d: DescriptorNumbers, addresses: &[RecordNumber]) -> io::Result<()> {
    print!(out;
        " order {} reclen {} kind {} vind {}",
        d.order.0, d.reclen, d.kind, d.vind
    )?;
    print!(out; " lind {} flags {} xnext {}", d.lind, d.flags, d.xnext.0)?;
    print!(out; " nextrec {} nextword {}", d.nextrec.0, d.nextword.0)?;
    print!(out; " lex1 {} nex {} gex {} aex", d.lex1, d.nex, d.gex)?;
    for address in addresses {
        print!(out; " {}", address.0)?;
    }
    Ok(())
}

// Validates a file and writes all its numbers.
pub(crate) fn described(case: Case, file: &[u8]) -> io::Result<()> {
    let validation = validate(file);
    case.begin("validate")?;
    match validation.numbers {
        Validated::Numbers(numbers) => {
            print_numbers(case.out, numbers, &validation.addresses)?;
            println!(case.out)
        }
        Validated::Refused(refusal) => println!(case.out; " refused {refusal}"),
    }
}

// Writes the record of an open file; behind a refusal it is zeros.
pub(crate) fn print_record(case: Case, answer: OpenFileAnswer) -> io::Result<()> {
    case.begin("open file")?;
    if answer.refusal != 0 {
        print!(case.out; " refused {}", answer.refusal)?;
    }
    print_numbers(case.out, answer.file.numbers, &answer.file.addresses)?;
    print!(case.out; " totals")?;
    for total in answer.file.totals {
        print!(case.out; " {total}")?;
    }
    println!(case.out)
}

// An extension by its number.
pub(crate) fn extended(case: Case, file: &[u8], asked: u64) -> io::Result<()> {
    let extension = extension_of(file, ExtensionNumber(asked));
    case.begin("extension")?;
    if extension.refusal != 0 {
        return println!(case.out; " refused {}", extension.refusal);
    }
    println!(case.out;
        " capacity {} first {} records {}",
        extension.capacity, extension.first.0, extension.records
    )
}
