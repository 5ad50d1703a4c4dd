// Counts that stop at the end of their type.
ghost use Rattle.std.specs.Prelude.{◌≡◌, ◌+◌, ◌≤◌};
ghost use Rattle.doom_edge.specs.Counts.{raised, Rose};

// A count after some more.
#[tactic(auto, unfolding(crate::specs::Counts::raised))]
pub(crate) fn raise(count: u64, by: u64) -> u64
    ensures raised { result ≡ raised count by }
    ensures most { result ≤ count + by }
    ensures least { count ≤ result }
{
    count.saturating_add(by)
}

// A count of faults after one more.
#[tactic(auto, unfolding(crate::specs::Counts::raised))]
pub(crate) fn add_fault(count: u64) -> u64
    ensures raised { result ≡ raised count 1 }
    ensures rose { Rose count result }
    ensures least { count ≤ result }
{
    raise(count, 1)
}
