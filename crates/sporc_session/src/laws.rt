//! Laws of sessions: what their logs have to do with runs of all clients of a document
//! (`sporc_client::laws`), what the receiver's acts are, and what a session without leaves names.

ghost use Rattle.std.specs.Prelude.{◌≡◌, ◌⊎◌, ◌↔◌, ◌≤◌, ◌^◌, ℕ, Bool, true, List, [], ◌++◌, length};
ghost use Rattle.std.specs.Prelude.{drop, All, Ok, Err, Some};
ghost use Rattle.lms_leaf.specs.declared.faults.LeafFault.TheVariants.{Exhausted};
ghost use Rattle.lms_tree.specs.LmsType.{height_of};
ghost use Rattle.sporc_member.specs.declared.device.Device.{Device};
ghost use Rattle.sporc_turn.specs.Log.{own};
ghost use Rattle.sporc_client.specs.Run.{IsRun, Move, Setup, World, start};
ghost use Rattle.sporc_shared.specs.Items.{Past, by_of, client_of, items_of};
ghost use Rattle.sporc_session.specs.declared.fault.SessionFault.TheVariants.{Leaf, NotSettled};
ghost use Rattle.sporc_session.specs.Acts.{Act, Looked, all_of};
ghost use Rattle.sporc_session.specs.Flows.{came_by, taken_by, waiting, submitted_by, sent_by};
ghost use Rattle.sporc_session.specs.Flows.{unsent};
ghost use Rattle.sporc_session.specs.Makers.{IsOfItsMaker};
ghost use Rattle.sporc_session.specs.Protocol.{Mode, Asking, Between, Leads, is_unsettled};
ghost use Rattle.sporc_session.specs.Runs.{AreMoves, IsJournal, moves_of};
ghost use Rattle.sporc_session.specs.Sessions.{IsSettled, Session};
ghost use Rattle.sporc_session.specs.WholeRounds.{AreRounds, IsFirstPhase};

/// What a session adds to the log, by all its threads, is moves of a run: a run in which a device
/// has the client that the session was begun with may go on with just these events, and the device
/// then has the client that the session left.
pub fn sessions_are_moves()
    ensures moves { (s : Setup) (w : World) (who : Device) (past : Past) (session : Session)
        → w.clients who ≡ Some (client_of past) → session.before.known.seen ≡ items_of past
        → AreMoves s w who past session.after.known.seen }
{}

/// Sessions of several clients may run at one time: in whatever order the events of their journals
/// come, they are one run. So all that the clients of a run agree on holds of them.
pub fn journals_are_a_run()
    ensures run { (s : Setup) (moves : List Move)
        → ((who : Device) → (moves_of who moves ≡ []) ⊎ IsJournal s who (moves_of who moves))
        → IsRun s start moves }
{}

/// The table of a receiver's modes, read as whole rounds. Acts lead from the beginning of a phase
/// to the end of its last round exactly if they are so many whole rounds, one after the other; in
/// the first phase, the client's document and member and Hello come before them.
pub fn phases_are_whole_rounds()
    ensures rounds { (ready : ℕ → ℕ → Bool) (acts : List Act) (n : ℕ)
        → Leads ready (Between 0) acts (Between n) ↔ AreRounds ready n acts }
    ensures first_phase { (ready : ℕ → ℕ → Bool) (acts : List Act) (n : ℕ)
        → Leads ready Asking acts (Between n) ↔ IsFirstPhase ready n acts }
{}

/// All entries that came are accepted, in their order, each at once or before the next message is
/// sent: what was accepted is a prefix of what came, and all of it between rounds.
pub fn entries_that_come_are_accepted()
    ensures first { (ready : ℕ → ℕ → Bool) (acts : List Act) (m : Mode) → Leads ready Asking acts m
        → all_of came_by acts ≡ all_of taken_by acts ++ waiting m }
    ensures second { (ready : ℕ → ℕ → Bool) (acts : List Act) (m : Mode)
        → Leads ready (Between 0) acts m → all_of came_by acts ≡ all_of taken_by acts ++ waiting m }
{}

/// The entries that are sent are those that submissions made, in their order, each once; only the
/// last one may still be unsent.
pub fn entries_that_are_made_are_sent()
    ensures first { (ready : ℕ → ℕ → Bool) (acts : List Act) (m : Mode) → Leads ready Asking acts m
        → all_of submitted_by acts ≡ all_of sent_by acts ++ unsent m }
    ensures second { (ready : ℕ → ℕ → Bool) (acts : List Act) (m : Mode)
        → Leads ready (Between 0) acts m
        → all_of submitted_by acts ≡ all_of sent_by acts ++ unsent m }
{}

/// Of the events that a session adds, each edit and each change of the members is an editor's. Each
/// submission, each item that was dropped and each entry that was accepted is the receiver's, whose
/// number is 0. Nothing is discarded.
pub fn sessions_add_what_their_makers_make()
    ensures makers { (session : Session) → let k = session.before.known in
        own by_of 0 k.start k.seen ≡ k.mine → k.start ≤ length k.seen
        → All IsOfItsMaker (drop (length k.seen) session.after.known.seen) }
{}

/// A session that is Ok leaves a client with nothing pending, and with so many entries or more. One
/// that ends with NotSettled names what is pending in the client that it leaves, and its number of
/// entries: something is, or they are too few.
pub fn sessions_settle()
    ensures settled { (past : Past) (session : Session) → session.after.known.seen ≡ items_of past
        → session.result ≡ Ok tt → IsSettled session.until (client_of past) }
    ensures unsettled { (past : Past) (session : Session) (pending at : ℕ)
        → session.after.known.seen ≡ items_of past → session.result ≡ Err (NotSettled pending at)
        → Looked (client_of past) at pending × (is_unsettled session.until at pending ≡ true) }
{}

/// A session that ends because no leaf is left names the number of all leaves of the member's key,
/// 2 to the height of its tree.
pub fn sessions_name_all_leaves()
    ensures leaves { (past : Past) (session : Session) (next : ℕ)
        → session.before.known.seen ≡ items_of past → session.result ≡ Err (Leaf (Exhausted next))
        → next ≡ 2 ^ height_of past.opening.key.lms }
{}
