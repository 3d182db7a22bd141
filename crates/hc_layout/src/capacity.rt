//! The sizes in which arrays of entries and stores of slots grow.
ghost use Rattle.std.specs.Prelude.{◌≡◌, ℕ, ◌<◌, ◌≤◌, Contains};
ghost use Rattle.hc_layout.specs.Capacity.{cap_of};

/// How many properties a fast object has at most.
pub const MAX_FAST: u32 = 64;

/// The capacities of arrays and stores, in rising order; the last is `MAX_FAST`.
pub const CAPACITIES: [u32; 5] = [4, 8, 16, 32, MAX_FAST];

/// The least capacity that has room for k.
#[tactic(auto, unfolding(crate::specs::Capacity::cap_of))]
pub fn cap(k: u32) -> u32
    requires some { 0 < k }
    requires most { k ≤ MAX_FAST }
    ensures value { result ≡ cap_of k }
    ensures listed { Contains CAPACITIES result }
    ensures enough { k ≤ result }
    ensures least { (c : ℕ) → Contains CAPACITIES c → k ≤ c → result ≤ c }
    ensures within { result ≤ MAX_FAST }
{
    for capacity in CAPACITIES {
        if k <= capacity {
            return capacity;
        }
    }
    MAX_FAST
}
