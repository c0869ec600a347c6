// The reference TSC page.
ghost use Rattle.std.specs.Prelude.{◌≡◌, ◌<◌, ◌≤◌};
ghost use Rattle.reference_tsc.specs.Page.{units, scale_of};
ghost use Rattle.c_calls.specs.Tsc.{no_page, time_at, IsUntil};

use reference_tsc::TscPage;

/// The scale and the offset of a reference TSC page; both are 0 if there is none.
#[repr(C)]
#[derive(Clone, Copy, PartialEq)]
pub struct CTscPage {
    pub scale: u64,
    pub offset: u64,
}

/// A page for a TSC of `hz` ticks a second, by which the time is `time` when the TSC is `tsc`. Both
/// fields are 0 if the TSC has no more than 10,000,000 ticks a second.
#[unsafe(no_mangle)]
pub extern "C" fn synicboard_tsc_page_at(hz: u64, tsc: u64, time: u64) -> CTscPage
    ensures none { hz ≤ units → result ≡ no_page }
    ensures scale { units < hz → result.scale ≡ scale_of hz }
    ensures time { units < hz → time_at result tsc ≡ time }
{
    match TscPage::new(hz, tsc, time) {
        Some(TscPage { scale, offset }) => CTscPage { scale, offset },
        None => CTscPage {
            scale: 0,
            offset: 0,
        },
    }
}

/// The page of a guest that continues: the same scale, and the time is `time` when the TSC is `tsc`.
#[unsafe(no_mangle)]
pub extern "C" fn synicboard_tsc_page_moved(page: CTscPage, tsc: u64, time: u64) -> CTscPage
    ensures scale { result.scale ≡ page.scale }
    ensures time { time_at result tsc ≡ time }
{
    let CTscPage { scale, offset } = page;
    let moved = TscPage { scale, offset }.moved(tsc, time);
    CTscPage {
        scale: moved.scale,
        offset: moved.offset,
    }
}

/// The reference time of a page when the TSC is `tsc`, in units of 100 ns.
#[unsafe(no_mangle)]
pub extern "C" fn synicboard_tsc_time(page: CTscPage, tsc: u64) -> u64
    ensures { result ≡ time_at page tsc }
{
    let CTscPage { scale, offset } = page;
    TscPage { scale, offset }.time_at(tsc)
}

/// The first TSC from which on a page has at least the time `time`: 0 if that is before the page's start, 2^64 - 1
/// if a TSC of 64 bits never gets there.
#[unsafe(no_mangle)]
pub extern "C" fn synicboard_tsc_until(page: CTscPage, time: u64) -> u64
    ensures { IsUntil page time result }
{
    let CTscPage { scale, offset } = page;
    let passed = time.wrapping_sub(offset);
    if passed >= 1 << 63 {
        return 0;
    }
    match (TscPage { scale, offset }).first_with(passed) {
        Some(tsc) => tsc,
        None => u64::MAX,
    }
}
