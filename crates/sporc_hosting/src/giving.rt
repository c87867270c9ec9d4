//! The tails of several logs, given back.

ghost use Rattle.std.specs.Prelude.{◌≡◌, ◌≤◌, ◌<◌, ◌+◌, ◌^◌, ◌++◌, List, length};
ghost use Rattle.sporc_bytes.specs.Fields.{fault_as};
ghost use Rattle.sporc_outside.specs.Uses.{use_of};
ghost use Rattle.sporc_docs.specs.Served.{AreKept};
ghost use Rattle.sporc_files.specs.Faults.{fault_among};
ghost use Rattle.sporc_hosting.specs.Tails.{GivesBack, KeepsBehind, LogTailModel};
ghost use Rattle.sporc_hosting.specs.Hosting.{GivesAllBack};

use crate::open_log::OpenLog;
use crate::serving::{keep_tail, remove_tail};
use crate::tail::LogTail;
use sporc_files::{Fault, first_fault};
use sporc_order::Order;
use sporc_outside::{AppendFile, Folder};

// Gives the files of all tails back, the last one first, gone if each log has all entries. The
// first log is that of the document of this number.
pub(crate) fn give_back_all<F: Folder>(
    files: &mut F,
    logs: &[OpenLog],
    orders: &[Order],
    number: u32,
    tails: &mut Vec<LogTail<F::Appended>>,
    saved: Result<(), Fault>,
) -> Result<(), Fault>
    requires one_length { length logs.now ≡ length orders.now }
    requires numbers_limit { number + length logs.now < 2 ^ 32 }
    requires tails { (front : List (LogTailModel F.Appended))
        × (mine : List (LogTailModel F.Appended)) × (tails.old.items ≡ front ++ mine)
        × AreKept (KeepsBehind F.Appended.told) mine orders.now }
    ensures gives { GivesAllBack number logs.now orders.now saved (F.told files.old)
        (F.told files.new) result }
    ensures tails { (front : List (LogTailModel F.Appended)) (mine : List (LogTailModel F.Appended))
        → tails.old.items ≡ front ++ mine
        → length mine ≡ length orders.now → tails.new.items ≡ front }
    ensures lent { (F.told files.new).lent ≡ (F.told files.old).lent }
    ensures asked { (F.told files.new).asked ≡ (F.told files.old).asked }
    ensures kept { (F.told files.old).faults ≤ (F.told files.new).faults }
{
    let Some((log, more_logs)) = logs.split_first() else {
        return Ok(());
    };
    let Some((order, more_orders)) = orders.split_first() else {
        return Ok(());
    };
    let others = give_back_all(files, more_logs, more_orders, number + 1, tails, saved);
    let Some(tail) = tails.pop() else {
        return others;
    };
    let one = give_back(files, log, order, tail, saved);
    first_fault(others, among(one, number))
}

// An answer of the document of this number, as that of one of several.
fn among(answer: Result<(), Fault>, number: u32) -> Result<(), Fault>
    ensures value { result ≡ fault_as (fault_among number) answer }
{
    match answer {
        Ok(()) => Ok(()),
        Err(fault) => Err(fault.among(number)),
    }
}

// Gives the file of one tail back.
fn give_back<F: Folder>(
    files: &mut F,
    log: &OpenLog,
    order: &Order,
    tail: LogTail<F::Appended>,
    saved: Result<(), Fault>,
) -> Result<(), Fault>
    requires tail { ∥ KeepsBehind F.Appended.told tail order.now.entries ∥₁ }
    ensures gives { GivesBack log.now.name (use_of F.told files.old files.new) log.now.logged
        order.now.genesis.document order.now.entries saved result }
    ensures lent { (F.told files.new).lent ≡ (F.told files.old).lent }
    ensures asked { (F.told files.new).asked ≡ (F.told files.old).asked }
    ensures kept { (F.told files.old).faults ≤ (F.told files.new).faults }
{
    match saved {
        Ok(()) => remove_tail(files, log.name.as_str(), tail),
        Err(_) => keep_tail(files, log.name.as_str(), order, log.logged, tail),
    }
}
