//! The orders in the logs and the tails of several documents.

ghost use Rattle.std.specs.Prelude.{◌≡◌, ◌≢◌, ◌≤◌, ◌<◌, ◌+◌, ◌^◌, ◌∷◌, ◌++◌, [], length, IfOk};
ghost use Rattle.std.specs.Prelude.{OnOk, OnErr, option_map, string_bytes};
ghost use Rattle.std.specs.Vec.{vec_len, vec_capacity};
ghost use Rattle.sporc_entry.specs.Genesis.{IsGenesis};
ghost use Rattle.sporc_outside.specs.Files.{ChangesFile, made_in};
ghost use Rattle.sporc_wire.specs.declared.limits.TheConstants.{MAX_DOCUMENTS};
ghost use Rattle.sporc_outside.specs.Uses.{use_of};
ghost use Rattle.sporc_docs.specs.declared.fault.DocsFault.TheVariants as docs_faults;
ghost use Rattle.sporc_files.specs.Names.{file_name};
ghost use Rattle.sporc_files.specs.Uses.{AsksOnly, OnlyReads};
ghost use Rattle.sporc_files.specs.Faults.{AnswersUnlessOutside};
ghost use Rattle.sporc_hosting.specs.Tails.{KeepsBehind, TakesTail};
ghost use Rattle.sporc_hosting.specs.Loading.{ChangesTails, FindsHeld, FindsUnlessHeld};
ghost use Rattle.sporc_hosting.specs.Loading.{OpensMoreBehind, OpensOneBehind, added, files_of_all};
ghost use Rattle.sporc_hosting.specs.Loading.{files_of_one, is_held, opened_to};
ghost use Rattle.sporc_hosting.specs.Loading.{with_tail_made, with_tails_made};

use crate::log::read_log;
use crate::open_log::OpenLog;
use crate::opening::{OpenedOrder, open_order_behind};
use crate::tail::LogTail;
use sporc_base::{Memory, is_same};
use sporc_docs::{Docs, DocsFault};
use sporc_entry::Genesis;
use sporc_files::{Fault, File, Names, read_genesis_file};
use sporc_order::Order;
use sporc_outside::{AppendFile, Counted, Folder, Gate};
use sporc_serve::KeptOrder;
use sporc_words::Word;
use std::alloc::Global;
use std::sync::Wait;
use std::thread::Threads;

// The documents that a server has open, with the tail of each, and how each log was opened.
#[derive(Drop)]
pub(crate) struct OpenDocs<A: AppendFile> {
    pub(crate) docs: Docs,
    pub(crate) tails: Vec<LogTail<A>>,
    pub(crate) logs: Vec<OpenLog>,
}

// Opens the documents of these names behind those that are open, of which the first has this number
// among all. If that fails, those that were opened are.
pub(crate) fn open_documents<R: Threads + Wait + Sync, F: Folder, G: Gate + Sync>(
    rt: &R,
    alloc: Global,
    files: &mut F,
    names: &[Word],
    number: u32,
    held: &mut OpenDocs<F::Appended>,
    gate: &G,
) -> Result<(), Fault>
    requires limit { length held.old.docs + length names.now ≤ MAX_DOCUMENTS }
    requires numbers_limit { number + length names.now < 2 ^ 32 }
    ensures opens { OpensMoreBehind F.Appended.told (use_of F.told files.old files.new) names.now
        number result held.old held.new }
    ensures made { OnOk result
        ((F.told files.new).files ≡ with_tails_made names.now (F.told files.old).files) }
    ensures changes { ChangesTails names.now (F.told files.old).files (F.told files.new).files }
    ensures lent { (F.told files.new).lent ≡ (F.told files.old).lent }
    ensures may_ask { AsksOnly (files_of_all names.now) (F.told files.old).asked
        (F.told files.new).asked }
    ensures kept { (F.told files.old).faults ≤ (F.told files.new).faults }
{
    let Some((name, others)) = names.split_first() else {
        return Ok(());
    };
    open_document(rt, alloc, files, name, number, held, gate)?;
    open_documents(rt, alloc, files, others, number + 1, held, gate)
}

// Opens one document. If that fails, those that are open stay as they are.
fn open_document<R: Threads + Wait + Sync, F: Folder, G: Gate + Sync>(
    rt: &R,
    alloc: Global,
    files: &mut F,
    name: &Word,
    number: u32,
    held: &mut OpenDocs<F::Appended>,
    gate: &G,
) -> Result<(), Fault>
    requires limit { length held.old.docs < MAX_DOCUMENTS }
    ensures opens { OpensOneBehind F.Appended.told (use_of F.told files.old files.new) name.now
        number result held.old held.new }
    ensures one { OnOk result (length held.new.docs ≡ length held.old.docs + 1) }
    ensures made { OnOk result
        ((F.told files.new).files ≡ with_tail_made name.now (F.told files.old).files) }
    ensures changes { ChangesTails (name.now ∷ []) (F.told files.old).files
        (F.told files.new).files }
    ensures lent { (F.told files.new).lent ≡ (F.told files.old).lent }
    ensures may_ask { AsksOnly (files_of_one name.now) (F.told files.old).asked
        (F.told files.new).asked }
    ensures kept { (F.told files.old).faults ≤ (F.told files.new).faults }
{
    make_room(held)?;
    let names = Names::of_document(name.as_str());
    match open_unless_held(rt, alloc, files, &names, held.docs.orders(), number, gate) {
        Ok(opened) => add(files, held, opened, number),
        Err(fault) => Err(fault.among(number)),
    }
}

// Opens a document, unless one of these orders is of it: then its log is loaded for its faults, and
// its tail is left alone.
fn open_unless_held<R: Threads + Wait + Sync, F: Folder, G: Gate + Sync>(
    rt: &R,
    alloc: Global,
    files: &mut F,
    names: &Names<'_>,
    orders: &[Order],
    number: u32,
    gate: &G,
) -> Result<OpenedOrder<F::Appended>, Fault>
    ensures found { FindsUnlessHeld (λ it. it.kept.order) (λ it. it.logged)
        (use_of F.told files.old files.new) names.now number orders.now result }
    ensures tail { IfOk result
        (λ it. KeepsBehind F.Appended.told it.kept.tail it.kept.order.entries) }
    ensures name { IfOk result (λ it. string_bytes it.name ≡ file_name names.now File.Tail) }
    ensures made { OnOk result ((F.told files.new).files ≡ option_map
        (λ told. made_in told (file_name names.now File.Tail)) (F.told files.old).files) }
    ensures changes { OnErr result (ChangesFile (F.told files.old).files (F.told files.new).files
        (file_name names.now File.Tail)) }
    ensures lent { (F.told files.new).lent ≡ (F.told files.old).lent }
    ensures may_ask { AsksOnly (file_name names.now File.Genesis ∷ file_name names.now File.Tail
        ∷ file_name names.now File.Log ∷ []) (F.told files.old).asked (F.told files.new).asked }
    ensures kept { (F.told files.old).faults ≤ (F.told files.new).faults }
{
    let genesis = read_genesis_file(alloc, files, names)?;
    if is_held(orders, &genesis.document) {
        return Err(fault_of_held(rt, alloc, files, names, genesis, number, gate));
    }
    open_order_behind(rt, alloc, files, names, genesis, gate)
}

// The fault of a document that is held: the first one of its log, or that it is held.
fn fault_of_held<R: Threads + Wait + Sync, F: Folder, G: Gate + Sync>(
    rt: &R,
    alloc: Global,
    files: &mut F,
    names: &Names<'_>,
    genesis: Genesis,
    number: u32,
    gate: &G,
) -> Fault
    requires genesis { IsGenesis genesis }
    ensures found { FindsHeld (use_of F.told files.old files.new) (file_name names.now File.Log)
        number genesis result }
    ensures reads { OnlyReads names.now (File.Log ∷ []) (use_of F.told files.old files.new) }
{
    match read_log(rt, alloc, files, names, genesis, gate) {
        Ok(order) => {
            drop(order);
            Fault::Exists(File::Document(number))
        }
        Err(fault) => fault,
    }
}

// Whether one of these orders is of this document.
fn is_held(orders: &[Order], document: &[u8; 16]) -> bool
    ensures value { result ≡ is_held orders.now document.now }
{
    let Some((first, others)) = orders.split_first() else {
        return false;
    };
    if is_same(document, first.document()) {
        return true;
    }
    is_held(others, document)
}

// Makes room for one document more.
fn make_room<A: AppendFile>(held: &mut OpenDocs<A>) -> Result<(), Memory>
    ensures docs { held.new.docs ≡ held.old.docs }
    ensures tails { held.new.tails.items ≡ held.old.tails.items }
    ensures logs { held.new.logs.items ≡ held.old.logs.items }
    ensures ok { OnOk result ((vec_len held.new.tails < vec_capacity held.new.tails)
        × (vec_len held.new.logs < vec_capacity held.new.logs)) }
{
    held.tails.reserve(1)?;
    held.logs.reserve(1)?;
    Ok(())
}

// Adds a document that was opened, unless it is held: then its tail's file goes back, and those
// that are open stay as they are.
fn add<F: Folder>(
    files: &mut F,
    held: &mut OpenDocs<F::Appended>,
    opened: OpenedOrder<F::Appended>,
    number: u32,
) -> Result<(), Fault>
    requires limit { length held.old.docs < MAX_DOCUMENTS }
    requires tails_room { vec_len held.old.tails < vec_capacity held.old.tails }
    requires logs_room { vec_len held.old.logs < vec_capacity held.old.logs }
    ensures value { AnswersUnlessOutside (λ docs. docs) ⊥ (opened_to result held.new.docs)
        (added number held.old.docs opened.kept.order) }
    ensures docs { OnOk result (held.new.docs ≡ held.old.docs ++ opened.kept.order ∷ []) }
    ensures tails { OnOk result
        (held.new.tails.items ≡ held.old.tails.items ++ opened.kept.tail ∷ []) }
    ensures logs { OnOk result (held.new.logs.items ≡ held.old.logs.items
        ++ record { name = string_bytes opened.name; logged = opened.logged } ∷ []) }
    ensures unchanged { OnErr result
        ((held.new.docs ≡ held.old.docs) × (held.new.tails.items ≡ held.old.tails.items)
        × (held.new.logs.items ≡ held.old.logs.items)) }
    ensures files { OnOk result ((F.told files.new).files ≡ (F.told files.old).files) }
    ensures back { OnErr result
        (TakesTail (string_bytes opened.name) (use_of F.told files.old files.new)) }
    ensures lent { (F.told files.new).lent ≡ (F.told files.old).lent }
    ensures asked { (F.told files.new).asked ≡ (F.told files.old).asked }
    ensures kept { (F.told files.old).faults ≤ (F.told files.new).faults }
{
    let OpenedOrder { kept, name, logged } = opened;
    let KeptOrder { order, tail } = kept;
    match held.docs.add(order) {
        Ok(()) => {
            held.tails.push_reserved(tail);
            held.logs.push_reserved(OpenLog { name, logged });
            Ok(())
        }
        Err((fault, _)) => {
            // Not called for its answer: that the folder's count can be told here is what `kept`
            // rests on.
            let _faults = files.faults();
            files.take_file(name.as_str(), tail.close());
            Err(fault_of(fault, number))
        }
    }
}

// The fault of the program that one of adding is, if there is room.
fn fault_of(fault: DocsFault, number: u32) -> Fault
    requires not_full { fault ≢ docs_faults.Full }
    ensures exists { fault ≡ docs_faults.Exists → result ≡ Fault.Exists (File.Document number) }
    ensures memory { fault ≡ docs_faults.Memory → result ≡ Fault.Memory }
{
    match fault {
        DocsFault::Exists => Fault::Exists(File::Document(number)),
        DocsFault::Full => unreachable!(),
        DocsFault::Memory => Fault::Memory,
    }
}
