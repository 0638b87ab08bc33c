// The order check, for C.
ghost use Rattle.outcome.specs.Outcome.{Answers};
ghost use Rattle.order.specs.Order.{check_of};
ghost use Rattle.classic.specs.Answers.{checked_for};

use super::answers::ClassicChecked;
use order::check_order;

// The first entry that fails and its refusal, or zeros.
pub fn classic_check(file: &[u8]) -> ClassicChecked
    ensures { Answers (checked_for (check_of file.now)) result }
{
    check_order(file).into()
}
