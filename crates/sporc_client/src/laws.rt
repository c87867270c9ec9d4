//! Laws of runs: what all clients of a document agree on, whatever the server hands them.

ghost use Rattle.std.specs.Prelude.{◌≡◌, ◌↔◌, ℕ, ◌+◌, ◌≤◌, List, [], ◌∷◌, ◌++◌, length, true, None};
ghost use Rattle.std.specs.Prelude.{Some};
ghost use Rattle.sporc_base.specs.Bytes.{IsBytes};
ghost use Rattle.sporc_member.specs.declared.device.Device.{Device};
ghost use Rattle.sporc_epoch.specs.Keys.{Keys};
ghost use Rattle.sporc_epoch.specs.Streams.{entry_stream};
ghost use Rattle.sporc_client.specs.Allowed.{can_log, is_allowed};
ghost use Rattle.sporc_client.specs.Calls.{LeadTo, events_of};
ghost use Rattle.sporc_client.specs.ClientModel.{Rise, StandOnce, leaves_of};
ghost use Rattle.sporc_client.specs.Closed.{IsClosed};
ghost use Rattle.sporc_client.specs.Genuine.{Genuine};
ghost use Rattle.sporc_client.specs.HonestEntries.{EntriesPass};
ghost use Rattle.sporc_client.specs.LeafUses.{AreUses, IsUse, LeafSupply, LeafUse, leaves_used};
ghost use Rattle.sporc_client.specs.Log.{Logged, Submit};
ghost use Rattle.sporc_client.specs.Makings.{CanMake};
ghost use Rattle.sporc_client.specs.PlainClient.{Opening, PlainClient};
ghost use Rattle.sporc_client.specs.Run.{IsAt, IsRun, May, Move, Open, Restart, Setup, World};
ghost use Rattle.sporc_client.specs.Run.{opening_of, start};
ghost use Rattle.sporc_client.specs.Step.{log_of_first, replay};
ghost use Rattle.sporc_client.specs.WellFormed.{IsWellFormed};
ghost use Rattle.sporc_client.specs.Reached.{IsReached};
ghost use Rattle.sporc_client.specs.Soundness.{IsSound};
ghost use Rattle.sporc_client.specs.Typed.{IsTypedRun};
ghost use Rattle.sporc_client.specs.Agree.{Agree};

/// Unless two different strings of their histories have one digest, clients with one history hash
/// hold the same, and clients that accepted one entry have one history up to the base that it
/// states, which is all that its author had committed, if a client of the run signed it. Each
/// accepted entry verifies under the key of its author's device there, once, in order and under a
/// right held there; a refusal names the first failed check and changes nothing. So in every run.
pub fn runs_agree()
    ensures agree { (s : Setup) (moves : List Move) → IsWellFormed s → IsRun s start moves
        → Agree s moves }
{}

/// At each moment of a run each client has a good history and a log that it allows, and its state
/// is the replay of that log.
pub fn runs_keep_clients()
    ensures reached { (s : Setup) (moves : List Move) (n : ℕ) (who : Device) (c : PlainClient)
        → IsRun s start moves → IsAt s moves n who c → IsReached s who c }
{}

/// And it is sound: its pending edits are stated on the committed text, one after the other, the
/// shown deltas lead to the shown text, and an entry on its way is that of the first pending item.
/// So in every run of values of their types.
pub fn clients_stay_sound()
    ensures sound { (s : Setup) (moves : List Move) (n : ℕ) (who : Device) (c : PlainClient)
        → IsTypedRun s moves → IsAt s moves n who c → IsSound c }
{}

/// An entry that a client signs, under its device's own key, is accepted by each client that holds
/// the same history, followed only by edits of others: it has room, isn't removed, and can learn
/// the new key of a change, unless that removes it or drops its device. So in every run of values
/// of their types.
pub fn honest_entries_pass()
    ensures accepted { (s : Setup) (moves : List Move) (m n : ℕ) (i j : Device) (c d : PlainClient)
        → IsTypedRun s moves → IsAt s moves m i c → IsAt s moves n j d → EntriesPass c d }
{}

/// No one forges in a run in which a server hands out only what clients of the run signed, and each
/// of their devices has its own key wherever it is live.
pub fn closed_runs_are_genuine()
    ensures genuine { (s : Setup) (moves : List Move) → IsTypedRun s moves → IsClosed s moves
        → Genuine s moves }
{}

/// Every call of a client is moves of that client, or changes nothing. What it did is what its
/// contract says of the log: a call that adds to the log, which stays allowed, is the events that
/// it adds; `restart` is a Restart; `open` and `resume` are an Open, and after it the entries that
/// the client begins with. So a journal is a list of events of a run.
pub fn calls_are_moves()
    ensures events { (s : Setup) (w : World) (who : Device) (o : Opening) (log added : List Logged)
        → w.clients who ≡ Some (replay o log) → is_allowed o (log ++ added) ≡ true
        → LeadTo s w (events_of who added) who (replay o (log ++ added)) }
    ensures restarts { (s : Setup) (w : World) (who : Device) (o : Opening) (log : List Logged)
        (k : ℕ) → w.clients who ≡ Some (replay o log) → k ≤ length (replay o log).entries
        → LeadTo s w (Restart who k ∷ []) who (replay o (log_of_first k (replay o log))) }
    ensures opens { (s : Setup) (w : World) (who : Device) (ring : Keys) (log : List Logged)
        → May s w (Open who ring) → is_allowed (opening_of s who ring) log ≡ true
        → LeadTo s w (Open who ring ∷ events_of who log) who (replay (opening_of s who ring) log) }
{}

/// A client of a run of values of their types allows a submission exactly if, with some leaf of its
/// key and 64 random bytes, it would answer that entry: leaf and random bytes are read off the
/// entry.
pub fn allowed_submissions_can_be_made()
    ensures made { (s : Setup) (moves : List Move) (n by : ℕ) (who : Device) (c : PlainClient)
        (entry : List ℕ) → IsTypedRun s moves → IsAt s moves n who c
        → IsBytes entry → (can_log c (Submit by entry) ≡ true) ↔ CanMake c entry }
{}

/// No two entries that a client's journal shows as submitted carry one leaf, and so no stream
/// number masks the bodies of two.
pub fn leaves_sign_once()
    ensures once { (first end : ℕ) (log : List Logged) → Rise first end (leaves_of log)
        → StandOnce (leaves_of log) }
    ensures streams { (device : Device) (leaf other : ℕ)
        → entry_stream device leaf ≡ entry_stream device other → leaf ≡ other }
{}

/// No two entries that a client gives carry one leaf, over all its calls: also if it goes back in
/// between, or is closed and its leaves are opened again. Each call is a use of leaves: `submit` by
/// its contract, and all others since they leave the kept ticket and the leaves as they were.
pub fn leaves_never_repeat()
    ensures once { (next : ℕ) (uses : List LeafUse)
        → AreUses (record { next = next; ticket = None }) uses → StandOnce (leaves_used uses) }
    ensures others { (s : LeafSupply) → IsUse s None s }
{}
