// Points at equal steps along one side of a tile.
ghost use Rattle.std.specs.Prelude.{◌≡◌, ◌↔◌, ℕ, ℤ, pos, ◌+ℤ◌, ◌-ℤ◌, ◌*ℤ◌, ◌≤ℤ◌, ◌^◌, ◌≤◌, unsigned_abs};
ghost use Rattle.lattice_sweep.specs.Axis.{point_of, Has, IsAxis, IsCut};

/// Points at equal steps, in tile units over 10125: number i lies at `first + i * step`. Those from `from` to before
/// `to` count.
#[derive(Clone, Copy, Debug, PartialEq, Eq)]
pub struct Axis {
    pub first: i64,
    pub step: i64,
    pub from: u16,
    pub to: u16,
}

// How many points from number 0 on lie before this place.
pub(crate) fn before(first: i64, step: i64, low: i64) -> u64
    requires first { unsigned_abs first ≤ 2 ^ 50 }
    requires low { unsigned_abs low ≤ 2 ^ 50 }
    requires forwards { pos 1 ≤ℤ step }
    requires step { step ≤ℤ pos 17592186044416 }
    ensures steps { (i : ℕ) → (low ≤ℤ (first +ℤ step *ℤ pos i)) ↔ (result ≤ i) }
    ensures size { result ≤ 2 ^ 52 }
{
    if low <= first {
        return 0;
    }
    ((low - first) as u64 - 1) / step as u64 + 1
}

impl Axis {
    /// Where the point of a number lies.
    pub fn at(&self, i: u16) -> i64
        requires { IsAxis self.now }
        ensures { result ≡ point_of self.now i }
    {
        self.first + self.step * i64::from(i)
    }

    /// The points from one place to another, both included.
    pub fn cut(&self, low: i64, high: i64) -> Axis
        requires axis { IsAxis self.now }
        requires low { unsigned_abs low ≤ 2 ^ 49 }
        requires high { unsigned_abs high ≤ 2 ^ 49 }
        ensures cut { IsCut self.now low high result }
        ensures axis { IsAxis result }
    {
        let from = before(self.first, self.step, low).max(self.from as u64);
        let to = before(self.first, self.step, high + 1).min(self.to as u64);
        Axis {
            first: self.first,
            step: self.step,
            from: from.min(65535) as u16,
            to: to as u16,
        }
    }
}
