// The frames that a window holds.
ghost use Rattle.std.specs.Prelude.{◌≡◌, ◌+◌, ◌<◌, ◌≤◌};
ghost use Rattle.smoother_window.specs.Config.{lag};
ghost use Rattle.smoother_window.specs.Window.{held_frame, AllCounted};

use crate::window::WindowRef;
use smoother_frame::frame::Frame;

// The frames that a window holds, at least one and no more than it has slots for: the counts of each are in bounds.
#[derive(Drop)]
pub struct HeldFrames<'a> {
    pub window: WindowRef<'a>,
    pub ghost some: { 0 < window.state.held },
    pub ghost few: { window.state.held ≤ lag window.state.config + 1 },
    pub ghost counted: { AllCounted window.state window.words.now },
}

impl<'a> HeldFrames<'a> {
    // The k-th of them, the oldest first.
    pub fn frame(&self, k: usize) -> Frame<'a>
        requires { k < self.now.window.state.held }
        ensures { result ≡ held_frame self.now.window.state self.now.window.words.now self.now.window.values.now k }
    {
        self.window.frame(k)
    }
}
