//! The passes of a store that goes on from another one.
ghost use Rattle.std.specs.Prelude.{◌≡◌, All, IfOk, OnOk, length};
ghost use Rattle.ds_store.specs.Passes.{HasRead};
ghost use Rattle.ds_feeding.specs.Feeding.{HasCaughtUp, HaveRead};

use ds_base::NoMemory;
use ds_store::{Names, Pass, Passes, Store};
use std::alloc::{AllocError, Global};
use std::sync::Wait;

/// These passes of a store, each of which has then seen no less than this pass of another store with as many shards, and has applied all
/// that its own store had. A refusal means out of memory.
pub(crate) fn all_caught_up<K: Names, H: Wait + Drop, J: Names, R: Wait>(
    rt: &R,
    alloc: Global,
    store: &Store<K, H>,
    passes: Passes<K>,
    old: &Pass<J>,
) -> Result<Passes<K>, NoMemory>
    requires { length old.now.lists ≡ store.now.shards }
    ensures read { IfOk result (HaveRead passes) }
    ensures caught_up { IfOk result (All (HasCaughtUp store.now.shards old.now)) }
{
    let mut later = Passes::new(alloc);
    for pass in passes.into_vec() {
        let pass = one_caught_up(rt, store, pass, old)?;
        let Ok(()) = later.push(pass) else {
            return Err(AllocError);
        };
    }
    Ok(later)
}

/// One pass. It applies all entries, meets the other one, and looks again at what it has then to have seen.
fn one_caught_up<K: Names, H: Wait + Drop, J: Names, R: Wait>(
    rt: &R,
    store: &Store<K, H>,
    mut pass: Pass<K>,
    old: &Pass<J>,
) -> Result<Pass<K>, NoMemory>
    requires { length old.now.lists ≡ store.now.shards }
    ensures read { IfOk result (λ later. HasRead pass later) }
    ensures caught_up { IfOk result (λ later. HasCaughtUp store.now.shards old.now later) }
{
    catch_up(rt, store, &mut pass, old)?;
    Ok(pass)
}

/// The same, with the pass in place.
fn catch_up<K: Names, H: Wait + Drop, J: Names, R: Wait>(
    rt: &R,
    store: &Store<K, H>,
    pass: &mut Pass<K>,
    old: &Pass<J>,
) -> Result<(), NoMemory>
    requires { length old.now.lists ≡ store.now.shards }
    ensures read { HasRead pass.old pass.new }
    ensures caught_up { OnOk result (HasCaughtUp store.now.shards old.now pass.new) }
{
    store.settle(rt, pass)?;
    store.meet_other(rt, pass, old);
    store.settle(rt, pass)?;
    Ok(())
}
