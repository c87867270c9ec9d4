//! The tail of a log, on its file.

ghost use Rattle.std.specs.Prelude.{◌≡◌, ◌+◌, ◌++◌, ◌∷◌, [], ◌^◌, ◌<◌, ◌≤◌, ℕ, List, Ok, Some};
ghost use Rattle.std.specs.Prelude.{IfErr, IfOk, IfSome, OnErr, OnOk, length};
ghost use Rattle.sporc_base.specs.Bytes.{IsBytes};
ghost use Rattle.sporc_head.specs.declared.limits.TheConstants.{MAX_ENTRIES};
ghost use Rattle.sporc_entry.specs.declared.limits.TheConstants.{MAX_ENTRY};
ghost use Rattle.sporc_outside.specs.Counts.{CountsFaults};
ghost use Rattle.sporc_outside.specs.LeafDisk.{IsSame};
ghost use Rattle.sporc_outside.specs.declared.file_fault.TheConstants.{MAX_FILE};
ghost use Rattle.sporc_outside.specs.AppendFile.{FileSteps};
ghost use Rattle.sporc_outside.specs.Uses.{use_of};
ghost use Rattle.sporc_store.specs.Loading.{accepted_from, an_order};
ghost use Rattle.sporc_store.specs.SavedFile.{read_to};
ghost use Rattle.sporc_store.specs.TailBytes.{record_bytes, tail_behind, taken_to};
ghost use Rattle.sporc_store.specs.TailFiles.{AreSynced, Cuts, IsFaultOf, IsRefusal, IsRefused};
ghost use Rattle.sporc_store.specs.TailFiles.{IsTakingFault, KeepsEntries, OpensBehind, Puts};
ghost use Rattle.sporc_store.specs.TailFiles.{SettlesRead, StaysFound, TellsStill, Writes};
ghost use Rattle.sporc_store.specs.TailFiles.{counting, head_behind, tail_on};
ghost use Rattle.sporc_store.specs.TailReadings.{AreTold, IsFaultOfRead, IsReadingFault, StaysTold};
ghost use Rattle.sporc_store.specs.TailReadings.{TakesRead};

use crate::appending::append_part;
use crate::head::{HEAD_LEN, head_of};
use crate::stop::Stop;
use crate::tail_fault::TailFault;
use crate::tail_reading::{TailEntries, read_tail};
use sporc_base::Memory;
use sporc_bytes::Out;
use sporc_entry::MAX_ENTRY;
use sporc_head::MAX_ENTRIES;
use sporc_order::{Order, Tail, Unkept};
use sporc_outside::{AppendFile, Failed, FileFault};
use std::alloc::Global;
use std::marker::Model;

/// The tail of a log, on the file that holds it: the entries that were ordered since the log was
/// saved. Each of them is on the disk before the order takes it.
///
/// Contracts see the file, the document, and whether a call of the file failed.
#[derive(Drop)]
pub struct TailFile<A: AppendFile> {
    alloc: Global,
    file: A,
    document: [u8; 16],
    is_faulty: bool,
}

impl<A: AppendFile> Model for TailFile<A> {
    ghost use Rattle.sporc_store.specs.TailFiles.{TailFileModel};

    ghost Value = { TailFileModel A };

    ghost view = { λ t. record { file = t.file; document = t.document; is_faulty = t.is_faulty } };
}

impl<A: AppendFile> TailFile<A> {
    ghost use Rattle.std.specs.Prelude.{false};

    /// Opens the tail of an order's log, which the order has whole: syncs its file, and takes the
    /// entries that the log lacks through the order's checks. What a stop left of one more is cut
    /// off, and so is all that the log has, if it has all. If that fails, the file comes back, and
    /// the order may have taken some of the entries.
    pub fn open(alloc: Global, file: A, order: &mut Order) -> Result<TailFile<A>, (TailFault, A)>
        ensures read { IfOk result (λ tail. TakesRead order.old.genesis order.old.entries
            (A.told file).stored order.new.entries) }
        ensures keeps { IfOk result
            (λ tail. OpensBehind A.told order.old.entries tail order.new.entries) }
        ensures fresh { IfOk result
            (λ tail. (tail.document ≡ order.old.genesis.document) × (tail.is_faulty ≡ false)) }
        ensures found { IfOk result (λ tail.
            StaysFound A.told order.old.entries order.old.genesis.document file tail.file) }
        ensures still_found { IfErr result
            (λ e. StaysFound A.told order.old.entries order.old.genesis.document file e.1) }
        ensures err { IfErr result (λ e. IsFaultOfRead order.old.genesis order.old.entries
            (A.told file).stored (A.told file).faults (A.told e.1).faults e.0) }
        ensures still_told { IfErr result
            (λ e. StaysTold order.old.entries order.old.genesis.document (A.told file).stored
            (A.told e.1).stored) }
        ensures genesis { order.new.genesis ≡ order.old.genesis }
        ensures kept { IfOk result (λ tail. (A.told file).faults ≤ (A.told tail.file).faults) }
        ensures returned_kept { IfErr result (λ e. (A.told file).faults ≤ (A.told e.1).faults) }
    {
        let mut file = file;
        let document = *order.document();
        match begin(alloc, &mut file, order) {
            Ok(()) => Ok(TailFile {
                alloc,
                file,
                document,
                is_faulty: false,
            }),
            Err(fault) => Err((fault, file)),
        }
    }

    /// Gives the file back.
    pub fn close(self) -> A
        ensures value { result ≡ self.file }
    {
        self.file
    }
}

impl<A: AppendFile> Tail for TailFile<A> {
    ghost keeps = { KeepsEntries A.told };

    ghost may_fail = { Unit {0} };

    fn put(&mut self, position: u32, entry: &[u8]) -> Result<(), Unkept>
        ensures puts { Puts A.told self.old position entry.now result self.new }
        ensures ok { OnOk result ((entries : List (List ℕ)) → KeepsEntries A.told self.old entries
            → position ≡ length entries + 1
            → KeepsEntries A.told self.new (entries ++ entry.now ∷ [])) }
        ensures err { OnErr result ((entries : List (List ℕ)) → KeepsEntries A.told self.old entries
            → position ≡ length entries + 1 → KeepsEntries A.told self.new entries) }
        ensures unkept { OnErr result (Unit {0}) }
    {
        if self.is_faulty || position > MAX_ENTRIES || entry.len() > MAX_ENTRY as usize {
            return Err(Unkept);
        }
        let Ok(record) = record_of(self.alloc, position, entry) else {
            return Err(Unkept);
        };
        match append_synced(&mut self.file, &record) {
            Ok(()) => Ok(()),
            Err(_) => {
                self.is_faulty = true;
                Err(Unkept)
            }
        }
    }
}

// The record of an entry.
fn record_of(alloc: Global, position: u32, entry: &[u8]) -> Result<Vec<u8>, Memory>
    requires { length entry.now ≤ MAX_ENTRY }
    ensures { IfOk result (λ r. r.items ≡ record_bytes position entry.now) }
{
    let mut record = Out::with_capacity(alloc, entry.len() + 8)?;
    record.put_u32(position)?;
    record.put_counted(entry)?;
    Ok(record.into_bytes())
}

// Takes what an order's log lacks of a tail, and makes the file one that is appended to.
fn begin<A: AppendFile>(alloc: Global, file: &mut A, order: &mut Order) -> Result<(), TailFault>
    ensures read { OnOk result
        (TakesRead order.old.genesis order.old.entries (A.told file.old).stored order.new.entries) }
    ensures opens { OnOk result (OpensBehind A.told order.old.entries
        (tail_on file.new order.old.genesis.document) order.new.entries) }
    ensures found { StaysFound A.told order.old.entries order.old.genesis.document file.old
        file.new }
    ensures err { IfErr result (IsFaultOfRead order.old.genesis order.old.entries
        (A.told file.old).stored (A.told file.old).faults (A.told file.new).faults) }
    ensures still_told { OnErr result (StaysTold order.old.entries order.old.genesis.document
        (A.told file.old).stored (A.told file.new).stored) }
    ensures genesis { order.new.genesis ≡ order.old.genesis }
    ensures kept { (A.told file.old).faults ≤ (A.told file.new).faults }
{
    let bytes = read_synced(alloc, file)?;
    let tail = take_tail(alloc, order, &bytes)?;
    settle(file, order.document(), &tail)?;
    Ok(())
}

// All bytes of a tail's file, which no crash takes away then.
fn read_synced<A: AppendFile>(alloc: Global, file: &mut A) -> Result<Vec<u8>, TailFault>
    ensures bytes { IfOk result (λ bytes. AreTold (A.told file.old).stored bytes.items) }
    ensures synced { IfOk result (λ bytes. AreSynced A.told file.new bytes.items) }
    ensures within { IfOk result (λ bytes. length bytes.items ≤ MAX_FILE) }
    ensures err { IfErr result (IsReadingFault (A.told file.old).stored (A.told file.old).faults
        (A.told file.new).faults) }
    ensures stored { (A.told file.new).stored ≡ (A.told file.old).stored }
    ensures images { FileSteps (use_of A.told file.old file.new) IsSame }
    ensures kept { (A.told file.old).faults ≤ (A.told file.new).faults }
{
    file.sync()?;
    let bytes = read_file(alloc, file)?;
    Ok(bytes)
}

// All bytes of a tail's file.
fn read_file<A: AppendFile>(alloc: Global, file: &mut A) -> Result<Vec<u8>, TailFault>
    ensures bytes { IfOk result (λ bytes. AreTold (A.told file.old).stored bytes.items) }
    ensures within { IfOk result (λ bytes. length bytes.items ≤ MAX_FILE) }
    ensures err { IfErr result (IsReadingFault (A.told file.old).stored (A.told file.old).faults
        (A.told file.new).faults) }
    ensures stored { (A.told file.new).stored ≡ (A.told file.old).stored }
    ensures images { FileSteps (use_of A.told file.old file.new) IsSame }
    ensures kept { (A.told file.old).faults ≤ (A.told file.new).faults }
{
    match file.read_whole(alloc) {
        Ok(bytes) => Ok(bytes),
        Err(FileFault::Failed) => Err(TailFault::Failed),
        Err(FileFault::TooLong(len)) => Err(TailFault::TooLong(len)),
        Err(FileFault::Memory) => Err(TailFault::Memory),
        Err(FileFault::Missing | FileFault::Exists) => unreachable!(),
    }
}

// The entries of a tail that an order's log lacks, taken through the order's checks.
fn take_tail<'a>(
    alloc: Global,
    order: &mut Order,
    bytes: &'a [u8],
) -> Result<TailEntries<'a>, TailFault>
    requires limit { length bytes.now ≤ MAX_FILE }
    ensures reads { IfOk result
        (λ tail. tail_behind order.old.entries order.old.genesis.document bytes.entry.now
        ≡ Ok (taken_to tail.entries.items tail.whole)) }
    ensures accepted { IfOk result (λ tail. accepted_from (an_order order.old.genesis)
        order.old.entries tail.entries.items Stop.End ≡ read_to order.new.entries Stop.End) }
    ensures all { IfOk result
        (λ tail. order.new.entries ≡ order.old.entries ++ tail.entries.items) }
    ensures within { IfOk result (λ tail. tail.whole ≤ length bytes.entry.now) }
    ensures fits { IfOk result (λ _. IsBytes bytes.entry.now) }
    ensures entries_within { IfOk result (λ _. length order.old.entries ≤ MAX_ENTRIES) }
    ensures err { IfErr result (IsTakingFault order.old.genesis order.old.entries
        (tail_behind order.old.entries order.old.genesis.document bytes.entry.now)) }
    ensures genesis { order.new.genesis ≡ order.old.genesis }
{
    let document = *order.document();
    let tail = read_tail(alloc, order.entries(), &document, bytes)?;
    take_entries(alloc, order, &tail)?;
    Ok(tail)
}

// Takes the entries of a tail through the checks of an order.
fn take_entries(alloc: Global, order: &mut Order, tail: &TailEntries<'_>) -> Result<(), TailFault>
    requires limit { length order.old.entries + length tail.now.entries.items < 2 ^ 32 }
    ensures ok { OnOk result (accepted_from (an_order order.old.genesis) order.old.entries
        tail.now.entries.items Stop.End ≡ read_to order.new.entries Stop.End) }
    ensures all { OnOk result (order.new.entries ≡ order.old.entries ++ tail.now.entries.items) }
    ensures err { IfErr result (IsRefusal (accepted_from
        (an_order order.old.genesis) order.old.entries tail.now.entries.items Stop.End)) }
    ensures genesis { order.new.genesis ≡ order.old.genesis }
{
    let before = order.len() as usize;
    let refused = append_part(alloc, order, before, tail.entries.as_slice())?;
    match refused {
        Some(stop) => Err(fault_of(stop)),
        None => Ok(()),
    }
}

// What a check that refused an entry is told as.
fn fault_of(stop: Stop) -> TailFault
    requires { IsRefused stop }
    ensures { IsFaultOf stop result }
{
    match stop {
        Stop::Refused(position, refusal) => TailFault::Refused(position, refusal),
        Stop::End | Stop::Foreign | Stop::Cut(_) => unreachable!(),
    }
}

// Cuts off what does not count of a file that was read, and makes its head if it has none.
fn settle<A: AppendFile>(
    file: &mut A,
    document: &[u8; 16],
    tail: &TailEntries<'_>,
) -> Result<(), Failed>
    requires { IfSome (A.told file.old).stored (λ bytes. tail.now.whole ≤ length bytes) }
    ensures settles { SettlesRead A.told document.now
        (taken_to tail.now.entries.items tail.now.whole) file.old file.new result }
    ensures told { TellsStill (A.told file.old).stored (A.told file.new).stored }
    ensures count { CountsFaults (A.told file.old).faults (A.told file.new).faults result }
{
    let kept = counting(tail);
    match cut_synced(file, kept as u64) {
        Ok(()) => head_written(file, document, kept),
        Err(failed) => Err(failed),
    }
}

// How many bytes of a tail's file count: up to the last whole record, or those of the head if the
// log has all records.
fn counting(tail: &TailEntries<'_>) -> usize
    ensures { result ≡ counting (taken_to tail.now.entries.items tail.now.whole) }
{
    if tail.entries.is_empty() {
        tail.whole.min(HEAD_LEN)
    } else {
        tail.whole
    }
}

// Writes the head behind so many bytes that count, if there are none.
fn head_written<A: AppendFile>(file: &mut A, document: &[u8; 16], kept: usize) -> Result<(), Failed>
    ensures writes { Writes A.told (head_behind document.now kept) file.old file.new result }
    ensures told { TellsStill (A.told file.old).stored (A.told file.new).stored }
    ensures count { CountsFaults (A.told file.old).faults (A.told file.new).faults result }
{
    if kept > 0 {
        return Ok(());
    }
    append_synced(file, &head_of(b"SPT1", document))?;
    Ok(())
}

// Appends bytes, and brings them to where no crash takes them away.
fn append_synced<A: AppendFile>(file: &mut A, bytes: &[u8]) -> Result<(), Failed>
    ensures writes { Writes A.told bytes.now file.old file.new result }
    ensures told { TellsStill (A.told file.old).stored (A.told file.new).stored }
    ensures count { CountsFaults (A.told file.old).faults (A.told file.new).faults result }
{
    file.append(bytes)?;
    file.sync()
}

// Takes away all bytes but the first, and brings that to where no crash undoes it.
fn cut_synced<A: AppendFile>(file: &mut A, len: u64) -> Result<(), Failed>
    requires { IfSome (A.told file.old).stored (λ bytes. len ≤ length bytes) }
    ensures cuts { Cuts A.told len file.old file.new result }
    ensures told { TellsStill (A.told file.old).stored (A.told file.new).stored }
    ensures count { CountsFaults (A.told file.old).faults (A.told file.new).faults result }
{
    file.cut(len)?;
    file.sync()
}
