//! Room for the seats of all passes.
ghost use Rattle.std.specs.Prelude.{◌≡◌, ◌<◌, [], IfOk};
ghost use Rattle.std.specs.Vec.{vec_capacity};

use ds_base::NoMemory;
use ds_draw::Seat;
use std::alloc::Global;
use std::sync::Wait;
use std::thread;

/// Room for the seats of so many passes and of the keeper, so that a close wants no memory. It stands under a lock, though only a close
/// takes it: threads can't share a list of seats, and so they couldn't share the store.
#[derive(Drop)]
pub struct SeatRoom {
    /// For so many passes.
    pub passes: u32,
    /// For the seats on the word of commits.
    pub commits: Vec<Seat>,
    /// For the seats on the word of ids.
    pub ids: Vec<Seat>,
    pub ghost empty: { (commits.items ≡ []) × (ids.items ≡ []) },
    pub ghost room: { (passes < vec_capacity commits) × (passes < vec_capacity ids) },
}

impl SeatRoom {
    /// Room for the seats of so many passes. A refusal means out of memory.
    pub fn for_passes(alloc: Global, passes: u32) -> Result<SeatRoom, NoMemory>
        ensures { IfOk result (λ room. room.passes ≡ passes) }
    {
        let commits = Vec::with_capacity(alloc, passes as usize + 1)?;
        let ids = Vec::with_capacity(alloc, passes as usize + 1)?;
        Ok(SeatRoom {
            passes,
            commits,
            ids,
        })
    }

    /// Waits for this to be the room for so many passes, which it is at once.
    pub fn is_for<R: Wait>(&self, rt: &R, passes: u32)
        ensures { self.now.passes ≡ passes }
    {
        for _ in rt.forever() {
            if self.passes == passes {
                return;
            }
            thread::yield_now();
        }
        unreachable!()
    }
}
