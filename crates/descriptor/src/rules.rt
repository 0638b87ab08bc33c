// The rules of a first record, tested in the order of their table.
ghost use Rattle.outcome.specs.Outcome.{Answers};
ghost use Rattle.outcome.specs.Refusal.{Refuses};
ghost use Rattle.words.specs.Word.{integer4, signed_of};
ghost use Rattle.words.specs.Range.{within};
ghost use Rattle.descriptor.specs.FirstRecord.{growth_in};
ghost use Rattle.descriptor.specs.Rules.{entries_fit, limit_refusal, setting_refusal, count_refusal};
ghost use Rattle.descriptor.specs.Bounds.{Settled, Lent, Holding};

use super::inner::mex;
use super::numbers::DescriptorNumbers;
use super::walking::Walked;
use geometry::{Growth, byte_offset, entries_before, position_within};
use outcome::Refusal;

// Whether the record length is admitted.
fn reclen_holds(reclen: u64) -> bool
    ensures { Answers (within 16 4096 (signed_of integer4 reclen)) result }
{
    words::within::<i32>(
        reclen,
        DescriptorNumbers::RECLEN_MIN,
        DescriptorNumbers::RECLEN_MAX,
    )
}

// Whether the length of a slot is admitted.
fn lind_holds(lind: u64) -> bool
    ensures { Answers (within 3 256 (signed_of integer4 lind)) result }
{
    words::within::<i32>(
        lind,
        DescriptorNumbers::LIND_MIN,
        DescriptorNumbers::LIND_MAX,
    )
}

// Rules 2 to 8 but for the capacities, on the numbers and the count of bytes lent.
pub(crate) fn limit_refusal(bytes: u64, d: DescriptorNumbers) -> Result<(), Refusal>
    ensures { Refuses (limit_refusal bytes d) result }
{
    Refusal::FileCode.unless(words::within::<i32>(d.order.0, 0, 1))?;
    Refusal::Reclen.unless(reclen_holds(d.reclen))?;
    Refusal::LentLength.unless(bytes <= DescriptorNumbers::BYTES_MAX)?;
    Refusal::LentLength.unless(bytes % (byte_offset(d.reclen) as u64) == 0)?;
    Refusal::Kind.unless(words::within::<i32>(d.kind, 1, 3))?;
    Refusal::IndexForm.unless(words::at_least::<i32>(d.vind, 2))?;
    Refusal::IndexForm.unless(lind_holds(d.lind))?;
    Refusal::Flags.unless(words::within::<i32>(d.flags, 0, 1))?;
    Refusal::Growth.unless(words::within::<i32>(d.lex1, Growth::LEX1_MIN, Growth::LEX1_MAX))?;
    Refusal::Growth.unless(words::within::<i32>(d.gex, Growth::GEX_MIN, Growth::GEX_MAX))?;
    Refusal::Growth.unless(words::within::<i32>(d.nex, 0, mex(d.reclen)))
}

// Rules 2 to 8: the first that is broken, or none.
#[tactic(auto, using(crate::proofs::Passed::setting_parts))]
pub fn setting_refusal(bytes: u64, d: DescriptorNumbers) -> Result<(), Refusal>
    ensures { Refuses (setting_refusal bytes d) result }
{
    limit_refusal(bytes, d)?;
    Refusal::Growth.unless(!geometry::over(Growth::new(d.lex1, d.gex), d.nex))
}

// Whether n entries fit the extensions in use, by what these hold without the last and with it.
#[tactic(auto, using(crate::proofs::Fitting::fits))]
fn entries_fit(d: DescriptorNumbers, walked: Walked, n: u64) -> bool
    requires { Holding d walked.before walked.total }
    ensures { Answers (entries_fit (growth_in d) d.nex n) result }
{
    if d.nex == 0 {
        return n == 0;
    }
    n <= walked.total && walked.before < n
}

// Rules 9 and 10, on settled numbers, what the walk over the extensions in use found, and the count of bytes lent.
pub(crate) fn count_refusal(bytes: u64, d: DescriptorNumbers, walked: Walked) -> Result<(), Refusal>
    requires { Settled d × Lent bytes d × Holding d walked.before walked.total }
    ensures { Refuses (count_refusal bytes d) result }
{
    Refusal::EntryCount.unless(words::at_least::<i64>(d.xnext.0, 1))?;
    Refusal::EntryCount.unless(entries_fit(d, walked, entries_before(d.xnext)))?;
    Refusal::NextFree.unless(words::at_least::<i64>(d.nextrec.0, 2))?;
    Refusal::NextFree.unless(words::within::<i32>(d.nextword.0, 1, d.reclen))?;
    Refusal::NextFree.unless(position_within(d.reclen, d.nextrec, d.nextword, bytes / 4))
}
