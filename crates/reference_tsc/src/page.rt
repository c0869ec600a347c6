// The scale and the offset of a reference TSC page.
ghost use Rattle.std.specs.Prelude.{◌≡◌, ◌↔◌, ◌<◌, ◌≤◌, ◌^◌, IfSome, None};
ghost use Rattle.reference_tsc.specs.Page.{units, elapsed, scale_of, time_of, IsFirstWith};

/// Units of reference time in a second: each has 100 ns.
pub const UNITS: u64 = 10_000_000;

/// What a guest computes the reference time with: `((tsc * scale) >> 64) + offset`, in units of
/// 100 ns. The offset wraps, so a negative one is that of two's complement.
#[derive(Clone, Copy, PartialEq, Eq, Debug)]
pub struct TscPage {
    /// TscScale: the units of each tick of the TSC, times 2^64.
    pub scale: u64,
    /// TscOffset: what is added to the scaled TSC.
    pub offset: u64,
}

/// The units of a number of ticks.
fn elapsed(scale: u64, tsc: u64) -> u64
    ensures { result ≡ elapsed scale tsc }
{
    (u128::from(tsc) * u128::from(scale) >> 64) as u64
}

/// The first TSC at which at least one unit has passed.
fn first_of(scale: u128, passed: u128) -> Option<u64>
    requires scale { (0 < scale) × (scale < 2 ^ 64) }
    requires passed { (0 < passed) × (passed < 2 ^ 64) }
    ensures { IsFirstWith scale passed result }
{
    let ticks = ((passed << 64) - 1) / scale + 1;
    if ticks >> 64 == 0 {
        Some(ticks as u64)
    } else {
        None
    }
}

impl TscPage {
    /// A page for a TSC of `hz` ticks a second, by which the time is `time` when the TSC is `tsc`.
    /// `None` if the TSC has no more ticks than a second has units, since the scale has 64 bits.
    pub fn new(hz: u64, tsc: u64, time: u64) -> Option<TscPage>
        ensures none { result ≡ None ↔ hz ≤ units }
        ensures scale { IfSome result (λ page. page.scale ≡ scale_of hz) }
        ensures time { IfSome result (λ page. time_of page tsc ≡ time) }
    {
        if hz <= UNITS {
            return None;
        }
        let scale = ((u128::from(UNITS) << 64) / u128::from(hz)) as u64;
        Some(TscPage { scale, offset: 0 }.moved(tsc, time))
    }

    /// The time when the TSC is `tsc`.
    pub fn time_at(&self, tsc: u64) -> u64
        ensures { result ≡ time_of self.now tsc }
    {
        elapsed(self.scale, tsc).wrapping_add(self.offset)
    }

    /// The first TSC at which that many units have passed since it was 0, before the offset is added; `None` if a
    /// TSC of 64 bits never gets there.
    pub fn first_with(&self, passed: u64) -> Option<u64>
        ensures { IsFirstWith self.now.scale passed result }
    {
        if passed == 0 {
            return Some(0);
        }
        if self.scale == 0 {
            return None;
        }
        first_of(u128::from(self.scale), u128::from(passed))
    }

    /// The page of a guest that continues: the same scale, and the time is `time` when the TSC is
    /// `tsc`.
    pub fn moved(self, tsc: u64, time: u64) -> TscPage
        ensures scale { result.scale ≡ self.scale }
        ensures time { time_of result tsc ≡ time }
    {
        TscPage {
            scale: self.scale,
            offset: time.wrapping_sub(elapsed(self.scale, tsc)),
        }
    }
}
