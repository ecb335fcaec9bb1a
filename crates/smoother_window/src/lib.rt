// The frames that a fixed-lag smoother holds, in a ring of slots in lent window buffers.
#![tactic(auto)]

pub mod held;
pub mod size;
pub mod window;

// A smoother's settings.
#[derive(Clone, Copy)]
pub struct SmootherConfig {
    // Frames held back; a frame is emitted this many frames late.
    pub lag_frames: usize,
    // Acceleration spectral density of the motion, in m²/s³: the tracker's.
    pub accel_spectral_density: f64,
    // C: the most tracks of a frame.
    pub max_tracks: usize,
}

// What is kept between calls, beside the window.
#[derive(Clone, Copy)]
pub struct FixedLagSmoother {
    pub config: SmootherConfig,
    // The slot of the oldest frame, counted round the window's lag_frames + 1 slots.
    pub first: usize,
    // How many frames are held.
    pub held: usize,
}
