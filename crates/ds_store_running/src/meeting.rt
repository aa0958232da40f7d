//! Meeting what other passes have seen.
ghost use Rattle.std.specs.Prelude.{◌≡◌, ◌<◌, ◌≤◌, length};
ghost use Rattle.ds_store_passes.specs.Answered.{AreAtLeast};
ghost use Rattle.ds_store_passes.specs.Passes.{HasRead, counts_of};

use crate::store::Store;
use ds_store_hubs::Names;
use ds_store_passes::Pass;
use std::sync::Wait;

impl<J: Names, H: Wait + Drop> Store<J, H> {
    /// Meets another pass of this store: this pass's place, counts and id counter are then no lower than that one's. It takes a lock again
    /// while that shows less. It takes no memory.
    pub fn meet_pass<R: Wait>(&self, rt: &R, pass: &mut Pass<J>, other: &Pass<J>)
        ensures read { HasRead pass.old pass.new }
        ensures place { other.now.place ≤ pass.new.place }
        ensures counts { AreAtLeast (counts_of other.now) (counts_of pass.new) }
        ensures next { other.now.next ≤ pass.new.next }
    {
        // For the proof alone: there is a slot for each shard.
        let _ = &self.shards;
        let _shards = other.slots();
        self.meet_other(rt, pass, other);
    }

    /// The same of a pass of any store that has as many shards.
    pub fn meet_other<K: Names, R: Wait>(&self, rt: &R, pass: &mut Pass<J>, other: &Pass<K>)
        requires { length other.now.lists ≡ self.now.shards }
        ensures read { HasRead pass.old pass.new }
        ensures place { other.now.place ≤ pass.new.place }
        ensures counts { AreAtLeast (counts_of other.now) (counts_of pass.new) }
        ensures next { other.now.next ≤ pass.new.next }
    {
        // For the proof alone: there is a slot for each shard.
        let _ = &self.shards;
        let _shards = pass.slots();
        pass.stand(other.place());
        self.look_up_to(rt, pass, other.next());
        let many = other.slots();
        for shard in 0..many {
            self.meet_count(rt, pass, shard, other.count_at(shard));
        }
    }
}
