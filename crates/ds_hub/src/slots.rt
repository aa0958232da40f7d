//! Slots of several hubs, entered and left all at once.
ghost use Rattle.std.specs.Prelude.{◌≡◌, IsTrue, map};
ghost use Rattle.std.specs.List.{All};
ghost use Rattle.ds_hub.specs.Growing.{AreLonger};
ghost use Rattle.ds_hub.specs.Holding.{hub_in, known_in, is_inside, out_of};

use crate::absorb::Absorb;
use crate::slot::Slot;

/// Enters each slot, in order, and waits for nobody. What each knows after begins with what it knew before. It says whether each
/// then has a view; where one has none, since its writer has ended, those behind it stay as they are.
pub fn enter_all<O: Drop, S: Absorb<O> + Drop>(slots: &mut [Slot<O, S>]) -> bool
    ensures hubs { map hub_in slots.new ≡ map hub_in slots.old }
    ensures known { AreLonger (map known_in slots.old) (map known_in slots.new) }
    ensures inside { IsTrue result → All (λ slot. IsTrue (is_inside slot)) slots.new }
{
    for slot in slots.iter_mut() {
        if !slot.enter() {
            return false;
        }
    }
    true
}

/// Leaves all views. What each slot knows stays.
pub fn leave_all<O: Drop, S: Absorb<O> + Drop>(slots: &mut [Slot<O, S>])
    ensures { slots.new ≡ map out_of slots.old }
{
    for slot in slots.iter_mut() {
        slot.leave();
    }
}
