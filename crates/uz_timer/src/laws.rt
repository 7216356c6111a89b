//! Laws of the timer's division.

ghost use Rattle.std.specs.Prelude.{◌≡◌, ◌+◌, ℕ};
ghost use Rattle.uz_core.specs.Timer.{Timer, IsTimer, timer_after};
ghost use Rattle.uz_timer.specs.OneClock.{one_clock};

/// The law that the division counts clock by clock: one clock moves the timer as the data sheet tells it, and so many
/// clocks and then so many more are their sum. Does nothing.
pub fn division_counts()
    ensures one { (t : Timer) → IsTimer t → timer_after 1 t ≡ one_clock t }
    ensures more { (a b : ℕ) (t : Timer) → timer_after (a + b) t ≡ timer_after b (timer_after a t) }
{}
