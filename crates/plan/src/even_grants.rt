// Grants that follow one another evenly.
ghost use Rattle.std.specs.Prelude.{◌≡◌, not, Decides, MatchOption};
ghost use Rattle.plan.specs.Answers.{first_of};
ghost use Rattle.plan.specs.EvenGrants.{even_grant};
ghost use Rattle.plan.specs.Rules.{GrantKeeps};
ghost use Rattle.plan.specs.Verdicts.{grant_kept};

use super::grant::Grant;
use super::numbers::Numbers;

/// Grants that stand right behind the timeslots for retransmission, one behind the other, with equal widths and with
/// addresses that count up.
#[derive(Clone, Copy)]
pub struct EvenGrants {
    /// How many there are. A plan takes at most 128.
    pub count: usize,
    /// How many base timeslots each has.
    pub width: u8,
    /// The full address of the first.
    pub address: u64,
    /// The simple address of the first.
    pub simple: u8,
}

impl EvenGrants {
    // Grant i, or none where one of its numbers passes the range of its type.
    pub(crate) fn grant(self, numbers: Numbers, i: usize) -> Option<Grant>
        ensures { MatchOption result (GrantKeeps numbers (even_grant numbers self.width self.address self.simple i) → ⊥) (λ g. g ≡ even_grant numbers self.width self.address self.simple i) }
    {
        let before = i.saturating_sub(1);
        let widths = before.checked_mul(usize::from(self.width))?;
        let first = widths.checked_add(usize::from(numbers.retransmission) + 1)?;
        Some(Grant {
            address: self.address.checked_add(before as u64)?,
            simple: u8::try_from(before.checked_add(usize::from(self.simple))?).ok()?,
            first: u8::try_from(first).ok()?,
            width: self.width,
        })
    }

    // Whether grant i keeps the rules by itself.
    pub(crate) fn keeps(self, numbers: Numbers, i: usize) -> bool
        ensures { Decides result (GrantKeeps numbers (even_grant numbers self.width self.address self.simple i)) }
    {
        self.grant(numbers, i)
            .is_some_and(|grant| grant.keeps(numbers))
    }

    // The number of the first grant that breaks a rule by itself, or none.
    pub(crate) fn first_to_break(self, numbers: Numbers) -> Option<usize>
        ensures { result ≡ first_of (λ i. not (grant_kept numbers (even_grant numbers self.width self.address self.simple i))) self.count }
    {
        (1..=self.count).find(|&i| !self.keeps(numbers, i))
    }
}
