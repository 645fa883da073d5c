//! A gate where two jobs of a sweep meet.
ghost use Rattle.std.specs.Prelude.{◌<◌};

use par_sweep::Gate;
use std::sync::atomic::{AtomicBool, Ordering};

/// How often a job looks for the other.
const TURNS: u32 = 1 << 28;

/// A gate where two jobs raise a flag each, and look for the flag of the other for a while. All other jobs pass.
#[derive(Drop)]
pub struct Meeting {
    jobs: [usize; 2],
    raised: [AtomicBool; 2],
    seen: [AtomicBool; 2],
}

impl Meeting {
    /// A gate where the jobs at two places meet.
    pub fn of(jobs: [usize; 2]) -> Meeting {
        Meeting {
            jobs,
            raised: [AtomicBool::new(false), AtomicBool::new(false)],
            seen: [AtomicBool::new(false), AtomicBool::new(false)],
        }
    }

    /// Whether each of the two jobs saw the flag of the other.
    pub fn took_place(&self) -> bool {
        self.seen[0].load(Ordering::SeqCst) && self.seen[1].load(Ordering::SeqCst)
    }

    /// Raises the flag of one side, and looks for that of the other.
    fn wait(&self, side: usize)
        requires { side < 2 }
    {
        self.raised[side].store(true, Ordering::SeqCst);
        for _ in 0..TURNS {
            if self.raised[1 - side].load(Ordering::SeqCst) {
                self.seen[side].store(true, Ordering::SeqCst);
                return;
            }
        }
    }
}

impl Gate for Meeting {
    fn enter(&self, job: usize) {
        for side in 0..2 {
            if self.jobs[side] == job {
                self.wait(side);
            }
        }
    }
}
