//! Known examples of the low latency mode (LLDN) of IEEE 802.15.4: slot sizes, a beacon, repeats, fates, refusals and images.
#![tactic(auto)]

ghost use Rattle.std.specs.Prelude.{◌≡◌, length};
ghost use Rattle.known_examples.specs.KnownExamples.{cases, KnownCasesHold};

/// How many claims the list of known examples has; `hold` says that each of them holds.
pub fn known_cases() -> usize
    ensures count { result ≡ length cases }
    ensures hold { KnownCasesHold }
{
    19
}
