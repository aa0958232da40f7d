//! Where strong reads stand.
ghost use Rattle.std.specs.Prelude.{◌≡◌, ◌≤◌, None, max, length, unwrap_or, IfOk, IfSome};
ghost use Rattle.ds_model.specs.Sessions.{list_of};
ghost use Rattle.ds_store_passes.specs.Passes.{HasRead};
ghost use Rattle.ds_store_shards.specs.Standing.{StandsAt};

use crate::shard_desk::ShardDesk;
use ds_base::NoMemory;
use ds_store_hubs::Names;
use ds_store_passes::Pass;
use std::sync::Wait;

/// Where a strong read of a shard stands: the place, and how many entries the commits up to there give the shard.
#[derive(Drop, Clone, Copy)]
pub struct Stand {
    /// The place.
    pub place: u64,
    /// How many entries.
    pub entries: u64,
}

/// Applies a shard's entries up to a place, and enters the shard for the pass; where there is an entry of later commits, it stays
/// waiting. The place is the given one, and else that of all commits that the shard's desk knows, which are no fewer than the pass
/// has seen and stands at: then these are all entries that the pass has seen of the shard. A refusal means out of memory, or that the
/// shard's hub has ended.
pub fn stand_known<J: Names, H: Wait + Drop, R: Wait>(
    rt: &R,
    pass: &mut Pass<J>,
    desk: &mut ShardDesk<J, H>,
    at: Option<u64>,
) -> Result<Stand, NoMemory>
    requires at { IfSome at (λ place. place ≤ pass.old.place) }
    requires known { unwrap_or at (max pass.old.place (length pass.old.journal)) ≤ length desk.old.journal.known }
    ensures stands { IfOk result (λ s. StandsAt desk.old.shards pass.old pass.new desk.old.number at s.place s.entries) }
    ensures all { at ≡ None → IfOk result (λ s. s.entries ≡ length (list_of pass.new.lists desk.old.number)) }
    ensures read { HasRead pass.old pass.new }
{
    pass.see_commits(&desk.journal);
    let place = at.unwrap_or(desk.journal.len());
    pass.stand(place);
    let entries = desk.entries_up_to(place);
    desk.apply_up_to(rt, entries)?;
    desk.show(rt, pass);
    pass.enter_shard(desk.number as usize)?;
    desk.confirm_pass(rt, pass);
    Ok(Stand { place, entries })
}
