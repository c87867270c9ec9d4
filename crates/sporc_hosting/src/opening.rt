//! What a server begins with: the order in its log and its tail.

ghost use Rattle.std.specs.Prelude.{◌≡◌, ◌≤◌, [], ◌∷◌, length, IfOk, IfSome, OnOk, OnErr};
ghost use Rattle.std.specs.Prelude.{option_map, string_bytes};
ghost use Rattle.sporc_entry.specs.Genesis.{IsGenesis};
ghost use Rattle.sporc_outside.specs.Files.{ChangesFile, made_in};
ghost use Rattle.sporc_outside.specs.Uses.{use_of};
ghost use Rattle.sporc_outside.specs.declared.file_fault.TheConstants.{MAX_FILE};
ghost use Rattle.sporc_files.specs.Names.{file_name};
ghost use Rattle.sporc_files.specs.Uses.{AsksOnly, OnlyReads};
ghost use Rattle.sporc_hosting.specs.Opening.{FindsBehind, FindsTail};
ghost use Rattle.sporc_hosting.specs.Serving.{FindsOrder, FindsOrderBehind, fault_of_tail};
ghost use Rattle.sporc_hosting.specs.Tails.{KeepsBehind};

use crate::log::read_log;
use crate::tail::LogTail;
use sporc_entry::Genesis;
use sporc_files::{Appended, Fault, File, Names, append_to_file, read_genesis_file};
use sporc_order::Order;
use sporc_outside::{AppendFile, Counted, Folder, Gate};
use sporc_serve::KeptOrder;
use sporc_store::{TailFault, TailFile};
use std::alloc::Global;
use std::sync::Wait;
use std::thread::Threads;

// What a server begins with: an order with its tail, the name of the tail's file, and how many
// entries the log has.
#[derive(Drop)]
pub(crate) struct OpenedOrder<A: AppendFile> {
    pub(crate) kept: KeptOrder<LogTail<A>>,
    pub(crate) name: String,
    pub(crate) logged: u32,
}

// An order with its tail, and how many entries the log has.
#[derive(Drop)]
struct LoggedOrder<A: AppendFile> {
    kept: KeptOrder<LogTail<A>>,
    logged: u32,
}

// The order in the log and the tail of a document, an empty one if there is neither. The tail's
// file, which is made if there is none, is out then: it is taken before the log is read. If that
// fails, the file is back.
pub(crate) fn open_order<R: Threads + Wait + Sync, F: Folder, G: Gate + Sync>(
    rt: &R,
    alloc: Global,
    files: &mut F,
    names: &Names<'_>,
    gate: &G,
) -> Result<OpenedOrder<F::Appended>, Fault>
    ensures found { FindsOrder (λ it. it.kept.order) (λ it. it.logged)
        (use_of F.told files.old files.new) names.now result }
    ensures tail { IfOk result
        (λ it. KeepsBehind F.Appended.told it.kept.tail it.kept.order.entries) }
    ensures name { IfOk result (λ it. string_bytes it.name ≡ file_name names.now File.Tail) }
    ensures made { OnOk result ((F.told files.new).files ≡ option_map
        (λ told. made_in told (file_name names.now File.Tail)) (F.told files.old).files) }
    ensures changes { OnErr result (ChangesFile (F.told files.old).files (F.told files.new).files
        (file_name names.now File.Tail)) }
    ensures lent { (F.told files.new).lent ≡ (F.told files.old).lent }
    ensures may_ask { AsksOnly (file_name names.now File.Genesis ∷ file_name names.now File.Tail
        ∷ file_name names.now File.Log ∷ []) (F.told files.old).asked (F.told files.new).asked }
    ensures kept { (F.told files.old).faults ≤ (F.told files.new).faults }
{
    let genesis = read_genesis_file(alloc, files, names)?;
    open_order_behind(rt, alloc, files, names, genesis, gate)
}

// The order in the log and the tail of a document whose genesis was read.
pub(crate) fn open_order_behind<R: Threads + Wait + Sync, F: Folder, G: Gate + Sync>(
    rt: &R,
    alloc: Global,
    files: &mut F,
    names: &Names<'_>,
    genesis: Genesis,
    gate: &G,
) -> Result<OpenedOrder<F::Appended>, Fault>
    requires genesis { IsGenesis genesis }
    ensures found { FindsOrderBehind (λ it. it.kept.order) (λ it. it.logged)
        (use_of F.told files.old files.new) names.now genesis result }
    ensures tail { IfOk result
        (λ it. KeepsBehind F.Appended.told it.kept.tail it.kept.order.entries) }
    ensures name { IfOk result (λ it. string_bytes it.name ≡ file_name names.now File.Tail) }
    ensures made { OnOk result ((F.told files.new).files ≡ option_map
        (λ told. made_in told (file_name names.now File.Tail)) (F.told files.old).files) }
    ensures changes { OnErr result (ChangesFile (F.told files.old).files (F.told files.new).files
        (file_name names.now File.Tail)) }
    ensures lent { (F.told files.new).lent ≡ (F.told files.old).lent }
    ensures may_ask { AsksOnly (file_name names.now File.Tail ∷ file_name names.now File.Log ∷ [])
        (F.told files.old).asked (F.told files.new).asked }
    ensures kept { (F.told files.old).faults ≤ (F.told files.new).faults }
{
    let taken = append_to_file(alloc, files, names, File::Tail)?;
    let Appended { file, name } = taken;
    match open_behind(rt, alloc, files, names, genesis, file, gate) {
        Ok(opened) => Ok(OpenedOrder {
            kept: opened.kept,
            name,
            logged: opened.logged,
        }),
        Err((fault, file)) => {
            // Not called for its answer: that the folder's count can be told here is what `kept`
            // rests on.
            let _faults = files.faults();
            files.take_file(name.as_str(), file);
            Err(fault)
        }
    }
}

// The order in the log behind a genesis, and in the tail of this file, and how many entries the log
// has.
fn open_behind<R: Threads + Wait + Sync, F: Folder, G: Gate + Sync>(
    rt: &R,
    alloc: Global,
    files: &mut F,
    names: &Names<'_>,
    genesis: Genesis,
    file: F::Appended,
    gate: &G,
) -> Result<LoggedOrder<F::Appended>, (Fault, F::Appended)>
    requires genesis { IsGenesis genesis }
    requires limit { IfSome (F.told files.old).files
        (λ _. IfSome (F.Appended.told file).stored (λ bytes. length bytes ≤ MAX_FILE)) }
    ensures found { FindsBehind (λ it. it.kept.order) (λ it. it.logged)
        (use_of F.told files.old files.new) (file_name names.now File.Log)
        (F.Appended.told file).stored F.Appended.told genesis result }
    ensures tail { IfOk result
        (λ it. KeepsBehind F.Appended.told it.kept.tail it.kept.order.entries) }
    ensures reads { OnlyReads names.now (File.Log ∷ []) (use_of F.told files.old files.new) }
{
    match read_log(rt, alloc, files, names, genesis, gate) {
        Ok(order) => open_tail(alloc, order, file),
        Err(fault) => Err((fault, file)),
    }
}

// An order with the entries that its log lacks of the tail of this file, and how many the log has.
fn open_tail<A: AppendFile>(
    alloc: Global,
    order: Order,
    file: A,
) -> Result<LoggedOrder<A>, (Fault, A)>
    ensures found { FindsTail (λ it. it.kept.order) (A.told file).stored A.told order result }
    ensures logged { IfOk result (λ it. it.logged ≡ length order.entries) }
    ensures tail { IfOk result (λ it. KeepsBehind A.told it.kept.tail it.kept.order.entries) }
{
    let mut order = order;
    let document = *order.document();
    let logged = order.len();
    match TailFile::open(alloc, file, &mut order) {
        Ok(tail) => {
            let tail = LogTail::new(tail, document, logged);
            let kept = KeptOrder { order, tail };
            Ok(LoggedOrder { kept, logged })
        }
        Err((fault, file)) => Err((fault_of_tail(fault), file)),
    }
}

// The fault of the program that one of opening a tail is.
fn fault_of_tail(fault: TailFault) -> Fault
    ensures { result ≡ fault_of_tail fault }
{
    match fault {
        TailFault::Failed => Fault::Outside,
        TailFault::TooLong(_) => Fault::TooLong(File::Tail),
        TailFault::Malformed(at) => Fault::Malformed(File::Tail, at as u64),
        TailFault::Refused(position, refusal) => Fault::Refused(position, refusal),
        TailFault::Memory => Fault::Memory,
    }
}
