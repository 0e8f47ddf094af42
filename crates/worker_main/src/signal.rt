// What workers listen to.
ghost use Rattle.std.specs.Prelude.{◌≡◌, ℕ, None, IfSome, true, false};

use call_queues::Pushed;
use std::sync::Wait;

/// What wakes the workers that wait for calls, and tells them when to stop. Threads share it.
pub trait Signal {
    /// It has told them to stop.
    ghost stops: { Self → Type 0 };

    /// That number was heard. Nobody can say so but by `listen`, unless the signal lets them.
    ghost hears: { Self → ℕ → Type 0 };

    /// At the look of that number it had not told them to stop.
    ghost looked: { Self → ℕ → Type 0 };

    /// Rings once for a call that was pushed. It wakes a worker, if one waits.
    fn ring<R: Wait>(&self, rt: &R, pushed: Pushed);

    /// A number that each ring changes. `None` if the workers must stop.
    fn listen<R: Wait>(&self, rt: &R) -> Option<u64>
        ensures stops { result ≡ None → stops self.now }
        ensures heard { IfSome result (λ number. hears self.now number) };

    /// Whether a worker at a slot may go on: it is asked before each turn there, by looks numbered from 0, and
    /// waits for nobody.
    fn may_go_on(&self, look: u64) -> bool
        ensures goes { result ≡ true → looked self.now look }
        ensures stops { result ≡ false → stops self.now };

    /// Whether a worker who shares is awaited where this signal is heard, beside the calls in the queues that it
    /// serves. It waits for nobody.
    fn is_awaited(&self) -> bool;

    /// Waits until that number is no longer the one that was heard, or the workers must stop.
    fn wait_past<R: Wait>(&self, rt: &R, heard: u64)
        requires { hears self.now heard };
}
