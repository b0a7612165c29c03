// What a database is made with. It stands alone here: a struct with a ghost field imports what its
// file imports.
ghost use Rattle.std.specs.Prelude.{pos, ◌-ℤ◌, ◌≤ℤ◌, ◌≤◌};

/// The deepest level of a database's tiles, and the height where no cell tells one.
#[derive(Clone, Copy, Debug, PartialEq, Eq)]
pub struct Params {
    /// The deepest level, 0 to 14.
    pub cap: u8,
    /// Metres, -16000 to 16000.
    pub fill: i16,
    ghost cap_in_range: { cap ≤ 14 },
    ghost fill_above: { (pos 0 -ℤ pos 16000) ≤ℤ fill },
    ghost fill_below: { fill ≤ℤ pos 16000 },
}

impl Params {
    ghost use Rattle.std.specs.Prelude.{◌≡◌, ◌↔◌, IsSome, IfSome};
    ghost use Rattle.terrain_base.specs.Height.{IsHeight};

    /// These params. `None` exactly where the cap is above 14 or the fill outside -16000 to 16000.
    pub fn of(cap: u8, fill: i16) -> Option<Params>
        ensures some { IsSome result ↔ ((cap ≤ 14) × IsHeight fill) }
        ensures value { IfSome result (λ params. (params.cap ≡ cap) × (params.fill ≡ fill)) }
    {
        if cap <= 14 && -16000 <= fill && fill <= 16000 {
            Some(Params { cap, fill })
        } else {
            None
        }
    }

    /// The deepest level, 0 to 14.
    pub fn cap(&self) -> u8
        ensures { result ≡ self.now.cap }
    {
        self.cap
    }

    /// The height where no cell tells one, in metres.
    pub fn fill(&self) -> i16
        ensures { result ≡ self.now.fill }
    {
        self.fill
    }
}
