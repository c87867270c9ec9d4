//! The tail of a server's log, as it is handed to the server and comes back.

ghost use Rattle.std.specs.Prelude.{◌≡◌, ◌≤◌, ◌↔◌, ◌+◌, ◌++◌, ◌∷◌, [], ℕ, List, length, IsTrue};
ghost use Rattle.std.specs.Prelude.{OnOk, OnErr};
ghost use Rattle.sporc_hosting.specs.Tails.{KeepsBehind};

use sporc_base::is_same;
use sporc_order::{Tail, Unkept};
use sporc_outside::AppendFile;
use sporc_store::TailFile;
use std::marker::Model;

// The tail of a document's log, and how many entries the log had that it was opened behind.
#[derive(Drop)]
pub(crate) struct LogTail<A: AppendFile> {
    tail: TailFile<A>,
    document: [u8; 16],
    logged: u32,
}

impl<A: AppendFile> Model for LogTail<A> {
    ghost use Rattle.sporc_hosting.specs.Tails.{LogTailModel};

    ghost Value = { LogTailModel A };

    ghost view = { λ t. record { tail = t.tail; document = t.document; logged = t.logged } };
}

impl<A: AppendFile> LogTail<A> {
    // A tail that was opened behind the log of this document, which had so many entries.
    pub(crate) fn new(tail: TailFile<A>, document: [u8; 16], logged: u32) -> LogTail<A>
        ensures { result ≡ record { tail = tail; document = document; logged = logged } }
    {
        LogTail {
            tail,
            document,
            logged,
        }
    }

    // Whether it is the tail of this document's log, and was opened behind one of so many entries
    // at the most.
    pub(crate) fn is_behind(&self, document: &[u8; 16], len: u32) -> bool
        ensures value { IsTrue result
            ↔ (self.now.document ≡ document.now) × (self.now.logged ≤ len) }
    {
        is_same(&self.document, document) && self.logged <= len
    }

    // Gives its file back.
    pub(crate) fn close(self) -> A
        ensures value { result ≡ self.tail.file }
    {
        self.tail.close()
    }
}

impl<A: AppendFile> Tail for LogTail<A> {
    ghost keeps = { KeepsBehind A.told };

    ghost may_fail = { Unit {0} };

    fn put(&mut self, position: u32, entry: &[u8]) -> Result<(), Unkept>
        ensures ok { OnOk result ((entries : List (List ℕ)) → KeepsBehind A.told self.old entries
            → position ≡ length entries + 1
            → KeepsBehind A.told self.new (entries ++ entry.now ∷ [])) }
        ensures err { OnErr result ((entries : List (List ℕ)) → KeepsBehind A.told self.old entries
            → position ≡ length entries + 1 → KeepsBehind A.told self.new entries) }
        ensures unkept { OnErr result (Unit {0}) }
    {
        self.tail.put(position, entry)
    }
}
