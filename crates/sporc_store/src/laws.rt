//! Laws of saved histories: what was saved is read again, and what is loaded is the longest prefix
//! that is accepted.

ghost use Rattle.std.specs.Prelude.{◌≡◌, ℕ, ◌≤◌, ◌<◌, ◌^◌, List, length, take, Some, None};
ghost use Rattle.std.specs.Prelude.{slice_get};
ghost use Rattle.std.specs.List.{All};
ghost use Rattle.sporc_base.specs.Bytes.{IsBytes};
ghost use Rattle.sporc_entry.specs.declared.genesis.Genesis.{Genesis};
ghost use Rattle.sporc_entry.specs.Genesis.{IsGenesis};
ghost use Rattle.sporc_head.specs.declared.limits.TheConstants.{MAX_ENTRIES};
ghost use Rattle.sporc_line.specs.Kit.{Kit};
ghost use Rattle.sporc_line.specs.Good.{Good};
ghost use Rattle.sporc_store.specs.SavedFile.{saved_bytes, saved_in, read_to, IsPrefix};
ghost use Rattle.sporc_store.specs.Loading.{AreAccepted, Checker, IsLoadedAgain, StopsAtRefused};
ghost use Rattle.sporc_store.specs.Loading.{an_order, a_member, fault_behind, loaded};
ghost use Rattle.sporc_store.specs.TailBytes.{IsReadBehind};
ghost use Rattle.sporc_store.specs.TailRuns.{BeginsAgain, IsFoundAgain, NothingIsLost};

use crate::stop::Stop;
use sporc_outside::AppendFile;

/// The file of a history is read as that history, to its end, and no other file is.
pub fn history_and_its_file()
    ensures read_again { (document : List ℕ) (entries : List (List ℕ)) → length document ≡ 16
        → length entries ≤ MAX_ENTRIES → All (λ e. length e < 2 ^ 32) entries
        → saved_in document (saved_bytes document entries) ≡ read_to entries Stop.End }
    ensures written_so { (document bytes : List ℕ) (entries : List (List ℕ)) → length document ≡ 16
        → IsBytes bytes → saved_in document bytes ≡ read_to entries Stop.End
        → bytes ≡ saved_bytes document entries }
{}

/// What is loaded of a file is the longest prefix of its entries that is accepted: each of them
/// fails no check where it stands, and either they are all, and loading stops where the file does,
/// or the next entry fails the check that the stop names, with its position.
pub fn longest_accepted_prefix()
    ensures prefix { (checker : Checker) (document bytes : List ℕ)
        → IsPrefix (loaded checker document bytes).entries (saved_in document bytes).entries }
    ensures accepted { (checker : Checker) (document bytes : List ℕ) (i : ℕ) (e : List ℕ)
        → slice_get (loaded checker document bytes).entries i ≡ Some e
        → fault_behind checker (take i (loaded checker document bytes).entries) e ≡ None }
    ensures whole { (checker : Checker) (document bytes : List ℕ)
        → (loaded checker document bytes).entries ≡ (saved_in document bytes).entries
        → (loaded checker document bytes).stop ≡ (saved_in document bytes).stop }
    ensures refused { (checker : Checker) (document bytes : List ℕ)
        → StopsAtRefused checker (saved_in document bytes) (loaded checker document bytes) }
{}

/// A history that was accepted and saved is loaded again, whole: that of a line for its member, and
/// that of an order.
pub fn saved_history_is_loaded()
    ensures for_a_member { (genesis : Genesis) (kit : Kit) (entries : List (List ℕ))
        → IsGenesis genesis → Good genesis kit entries
        → IsLoadedAgain (a_member genesis kit) genesis.document entries }
    ensures by_an_order { (genesis : Genesis) (entries : List (List ℕ)) → IsGenesis genesis
        → AreAccepted genesis entries
        → IsLoadedAgain (an_order genesis) genesis.document entries }
{}

/// What a tail of entries is read as behind a log: a last record that is cut counts as none, and
/// what the log has is skipped.
pub fn tails_are_read_again()
    ensures again { (log all : List (List ℕ)) (document : List ℕ) (from : ℕ) (next : List ℕ) (k : ℕ)
        → IsReadBehind log all document from next k }
{}

/// Over any run of openings, entries that are put, calls that fail, logs that are saved, and stops
/// at any moment, each order begins with all that any order had before: nothing that was answered
/// or handed out is lost, and it stays where it was. What a stop leaves of the file is always read
/// behind the saved log, and never malformed. And if the first log was accepted, and each entry was
/// checked before it was put, as [`sporc_order::Order::submit_kept`] does, the next order can
/// begin: its checks accept the saved log, and behind it all that is read of the file, and it
/// begins with all that any order had.
///
/// The tail is on a file that tells its bytes, and behaves as [`AppendFile`] says. Of a file that
/// tells none, as a real one, this says nothing.
pub fn nothing_ordered_is_lost<A: AppendFile>()
    ensures nothing_lost { (genesis : Genesis) → NothingIsLost A.told genesis }
    ensures found { (genesis : Genesis) → IsFoundAgain A.told genesis }
    ensures begins_again { (genesis : Genesis) → BeginsAgain A.told genesis }
{}
