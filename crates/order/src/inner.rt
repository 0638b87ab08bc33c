// The check over the entries of validated numbers.
ghost use Rattle.outcome.specs.Outcome.{Answers};
ghost use Rattle.descriptor.specs.FirstRecord.{addresses_of};
ghost use Rattle.descriptor.specs.Bounds.{AdmittedIn, TotalsOf};
ghost use Rattle.order.specs.Order.{checked_all};

use super::answers::Checked;
use super::rules::{ends_in_order, starts_in_order};
use super::standing::{Standing, standing_next};
use descriptor::DescriptorNumbers;
use entry::inner::enter_at;
use geometry::{EntryNumber, entries_before};
use outcome::Refusal;

// The first entry that fails, with its refusal, or 0 and 0.
pub fn check_entries(file: &[u8], d: DescriptorNumbers, totals: &[u64]) -> Checked
    requires { AdmittedIn file.now d (addresses_of file.now d.nex) × TotalsOf d totals.now }
    ensures { Answers (checked_all file.now d (addresses_of file.now d.nex)) result }
{
    let entries = entries_before(d.xnext);
    let mut at = Standing::default();
    let mut before = 0;
    for passed in 0..entries {
        let number = EntryNumber(passed + 1);
        at = standing_next(file, d, totals, at, number);
        let entered = match enter_at(file, d, at.slot, number) {
            Ok(entered) => entered,
            Err(refusal) => {
                return Checked {
                    entry: number,
                    refusal: refusal.number(),
                };
            }
        };
        let end = entered.start + entered.nword;
        if !starts_in_order(file, d, at, number, before, entered.start)
            || !ends_in_order(file, d, at, number, end)
        {
            return Checked {
                entry: number,
                refusal: Refusal::Order.number(),
            };
        }
        before = end;
    }
    Checked::default()
}
