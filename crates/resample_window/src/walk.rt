// The taps of a window, one by one.
ghost use Rattle.std.specs.Prelude.{◌≡◌, ◌<◌};
ghost use Rattle.std.specs.Iterator.{YieldsFirst, item_count};
ghost use Rattle.resample_window.specs.Window.{taps_of, Small};

use crate::{Tap, Window, clamp};
use std::marker::Model;

// Seen as the list of the taps that are left: those of the numbers from `left.first` on.
#[derive(Drop)]
pub struct WindowTaps {
    left: Window,
    src: usize,
}

impl Model for WindowTaps {
    ghost use Rattle.std.specs.Prelude.{List, ◌<◌, ◌^◌};
    ghost use Rattle.std.specs.Int.Signed.{mag};
    ghost use Rattle.resample_window.specs.declared.Tap.{Tap};
    ghost use Rattle.resample_window.specs.Window.{taps_of};

    ghost Value = { List Tap };

    ghost view = { λ a. taps_of a.left a.src };

    ghost invariant = { λ a. (mag a.left.last < 2 ^ 30) × (0 < a.src) };
}

impl WindowTaps {
    pub(crate) fn new(window: Window, src: usize) -> WindowTaps
        requires { Small window × (0 < src) }
        ensures { result ≡ taps_of window src }
    {
        WindowTaps { left: window, src }
    }
}

impl Iterator for WindowTaps {
    type Item = Tap;

    ghost next_gives = { YieldsFirst (λ s. s) };

    ghost remaining = { item_count (λ s. s) };

    fn next(&mut self) -> Option<Tap> {
        while self.left.first <= self.left.last {
            let number = self.left.first;
            let reached = self.left.weight(number);
            self.left.first += 1;
            if let Some(weight) = reached {
                return Some(Tap {
                    from: clamp(number, self.src),
                    weight,
                });
            }
        }
        None
    }
}
