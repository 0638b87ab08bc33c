// Rule 23, in the order of its table.
ghost use Rattle.std.specs.Prelude.{◌≡◌};
ghost use Rattle.outcome.specs.Refusal.{Refuses};
ghost use Rattle.descriptor.specs.Bounds.{Settled};
ghost use Rattle.placing.specs.Placing.{full};
ghost use Rattle.placing.specs.Rules.{extension_refusal};

use descriptor::DescriptorNumbers;
use descriptor::inner::mex;
use geometry::{ExtensionNumber, Growth, capacity};
use outcome::Refusal;

// Refuses where another extension is needed and may not be made.
pub(crate) fn extension_refusal(d: DescriptorNumbers, extends: bool) -> Result<(), Refusal>
    requires { Settled d × (extends ≡ full d) }
    ensures { Refuses (extension_refusal d) result }
{
    if !extends {
        return Ok(());
    }
    if mex(d.reclen) <= d.nex {
        return Err(Refusal::AppendGrowth);
    }
    let entries = capacity(Growth::new(d.lex1, d.gex), ExtensionNumber(d.nex + 1));
    if Growth::CAPACITY_MAX < entries {
        return Err(Refusal::AppendGrowth);
    }
    Ok(())
}
