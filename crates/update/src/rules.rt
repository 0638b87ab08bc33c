// The rules of new content, all numbered 28.
ghost use Rattle.outcome.specs.Refusal.{Refuses};
ghost use Rattle.update.specs.Rules.{content_refusal};

use outcome::Refusal;

// Refuses content of so many bytes that is empty, not whole words, or larger than the space.
#[tactic(auto, using(std::proofs::lemmas::Bool::Decides::nat_tests), unfolding(crate::specs::Rules::content_refusal))]
pub(crate) fn content_refusal(bytes: usize, space: usize) -> Result<(), Refusal>
    ensures { Refuses (content_refusal bytes space) result }
{
    if bytes < 1 || bytes % 4 != 0 || space < bytes {
        return Err(Refusal::UpdateContent);
    }
    Ok(())
}
