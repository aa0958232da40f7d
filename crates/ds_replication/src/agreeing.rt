//! What a script leaves.
ghost use Rattle.std.specs.Prelude.{◌≡◌, ℕ, List, Ok};
ghost use Rattle.ds_paxos.specs.Runs.{Agree, HoldsProposed, run};
ghost use Rattle.ds_paxos.specs.Worlds.{WorldParts};
ghost use Rattle.ds_replication.specs.Lines.{lines_of};
ghost use Rattle.ds_replication.specs.Scripts.{events_of, run_script};

use ds_paxos::agreement;

/// The world after a script is that after the events of its lines. So its replicas agree, and each entry that one holds was proposed in
/// the script for that log and position.
pub fn scripts_agree()
    ensures events { (n : ℕ) (text : List ℕ) (w : WorldParts) → run_script n text ≡ Ok w → run n (events_of (lines_of text)) ≡ w }
    ensures agree { (n : ℕ) (text : List ℕ) (w : WorldParts) → run_script n text ≡ Ok w → Agree w }
    ensures proposed { (n : ℕ) (text : List ℕ) (w : WorldParts) → run_script n text ≡ Ok w → HoldsProposed (events_of (lines_of text)) w }
{
    agreement();
}
