ghost use Rattle.std.specs.Prelude.{◌≡◌, ℕ, ◌+◌, ◌*◌, ◌^◌, ◌<◌, ◌≤◌};
ghost use Rattle.hc_layout.specs.Bits.{field_of, AreApart};

/// The field of a word that is WIDTH bits from bit SHIFT on.
pub struct Bits<const SHIFT: u32, const WIDTH: u32>;

impl<const SHIFT: u32, const WIDTH: u32> Bits<SHIFT, WIDTH> {
    pub fn get(w: u64) -> u64
        requires begins { SHIFT < 64 }
        requires ends { SHIFT + WIDTH ≤ 64 }
        ensures value { result ≡ field_of SHIFT WIDTH w }
        ensures fits { result < 2 ^ WIDTH }
    {
        let rest = w >> SHIFT;
        if WIDTH < 64 {
            rest % (1 << WIDTH)
        } else {
            rest
        }
    }

    pub fn put(w: u64, v: u64) -> u64
        requires begins { SHIFT < 64 }
        requires ends { SHIFT + WIDTH ≤ 64 }
        requires fits { v < 2 ^ WIDTH }
        ensures gives { field_of SHIFT WIDTH result ≡ v }
        ensures stays { (s t : ℕ) → AreApart s t SHIFT WIDTH → field_of s t result ≡ field_of s t w }
        ensures exact { result + field_of SHIFT WIDTH w * 2 ^ SHIFT ≡ w + v * 2 ^ SHIFT }
    {
        let old = Self::get(w) << SHIFT;
        (w - old) + (v << SHIFT)
    }
}
