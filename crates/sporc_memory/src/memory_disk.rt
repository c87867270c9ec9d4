//! Disks in memory.

ghost use Rattle.std.specs.Prelude.{◌≡◌, ℕ, List, take, drop, ◌+◌, ◌≤◌, [], Some, length, IfOk};
ghost use Rattle.std.specs.Prelude.{OnOk, IsTrue, ◌↔◌, ◌<◌};
ghost use Rattle.sporc_memory.specs.CallsModel.{CountsCall};
ghost use Rattle.sporc_outside.specs.LeafDisk.{overwrite, IsSame, IsSameOutside, KeepsOutside};
ghost use Rattle.sporc_outside.specs.LeafDisk.{CrashStep};
ghost use Rattle.sporc_outside.specs.Counts.{CountsFaults};
ghost use Rattle.sporc_memory.specs.Logged.{LogsCall};
ghost use Rattle.sporc_memory.specs.MemoryDisk.{DiskState, IsSpoilt, IsUnsynced, after_request};
ghost use Rattle.sporc_memory.specs.MemoryDisk.{state_after};

use crate::calls::Calls;
use crate::logged::log_call;
use crate::requests::{DiskCall, DiskRequest};
use sporc_outside::{Counted, Failed, FileBytes, LeafDisk};
use std::alloc::{AllocError, Global};
use std::marker::Model;

/// A disk that keeps its bytes and tells them, with a log of all its calls, from which what a crash
/// after any of them may leave is read. A call that finds no memory for the log fails.
#[derive(Drop)]
pub struct MemoryDisk {
    alloc: Global,
    first: Vec<u8>,
    bytes: Vec<u8>,
    log: Vec<DiskCall>,
    calls: Calls,
}

impl Model for MemoryDisk {
    ghost use Rattle.std.specs.Prelude.{◌≡◌};
    ghost use Rattle.sporc_memory.specs.MemoryDisk.{MemoryDiskModel, state_after};

    ghost Value = { MemoryDiskModel };

    ghost view = { λ d. record { first = d.first.items; log = d.log.items; calls = d.calls } };

    ghost invariant = { λ d. d.bytes.items ≡ (state_after d.first.items d.log.items).bytes };
}

impl MemoryDisk {
    ghost use Rattle.std.specs.Prelude.{map};
    ghost use Rattle.sporc_memory.specs.MemoryDisk.{bytes_of, images_of, state_after, AreListed};
    ghost use Rattle.sporc_memory.specs.MemoryDisk.{AddsSpoilt, IsSpoilt, IsWrite};

    /// Holds these bytes, all of them synced. The listed calls fail.
    pub fn new(alloc: Global, bytes: Vec<u8>, calls: Calls) -> Result<MemoryDisk, AllocError>
        ensures ok { IfOk result (λ disk.
            disk ≡ record { first = bytes.items; log = []; calls = calls }) }
    {
        let first = Vec::from_slice(alloc, &bytes)?;
        Ok(MemoryDisk {
            alloc,
            first,
            bytes,
            log: Vec::new(alloc),
            calls,
        })
    }

    /// What a read gives.
    pub fn as_slice(&self) -> &[u8]
        ensures value { result.now ≡ bytes_of self.now }
    {
        self.bytes.as_slice()
    }

    /// Gives up the bytes.
    pub fn into_bytes(self) -> Vec<u8>
        ensures value { result.items ≡ bytes_of self }
    {
        self.bytes
    }

    /// The calls so far, oldest first.
    pub fn log(&self) -> &[DiskCall]
        ensures value { result.now ≡ self.now.log }
    {
        self.log.as_slice()
    }

    /// Four of what a crash may leave now: what a read gives, and that with all bytes that were
    /// written since the last sync that succeeded as 0, as 1, and as 255. A write that failed is
    /// one, too.
    pub fn images(&self) -> Result<Vec<Vec<u8>>, AllocError>
        ensures ok { IfOk result (λ images. AreListed (state_after self.now.first self.now.log)
            (map (λ image. image.items) images.items)) }
    {
        let mut images = Vec::new(self.alloc);
        let same = Vec::from_slice(self.alloc, &self.bytes)?;
        images.push(same)?;
        self.push_spoilt(0, &mut images)?;
        self.push_spoilt(1, &mut images)?;
        self.push_spoilt(255, &mut images)?;
        Ok(images)
    }

    // Lists what a read gives with this byte in place of each that is not synced.
    fn push_spoilt(&self, byte: u8, images: &mut Vec<Vec<u8>>) -> Result<(), AllocError>
        ensures { OnOk result (AddsSpoilt (state_after self.now.first self.now.log) byte
            (map (λ image. image.items) images.old.items)
            (map (λ image. image.items) images.new.items)) }
    {
        let image = self.spoilt(byte)?;
        images.push(image)?;
        Ok(())
    }

    // What a read gives, with this byte in place of each that was written since the last sync that
    // succeeded.
    fn spoilt(&self, byte: u8) -> Result<Vec<u8>, AllocError>
        ensures { IfOk result
            (λ image. IsSpoilt (state_after self.now.first self.now.log) byte image.items) }
    {
        let mut image = Vec::from_slice(self.alloc, &self.bytes)?;
        spoil(&mut image, &self.log, byte);
        Ok(image)
    }

    // Counts and logs a call that writes nothing.
    fn enter(&mut self, request: DiskRequest) -> Result<(), Failed>
        requires { IsWrite request → ⊥ }
        ensures logged { LogsCall self.old.log self.new.log request result }
        ensures bytes { bytes_of self.new ≡ bytes_of self.old }
        ensures images { CrashStep (length self.old.log) (length self.new.log) (images_of self.old)
            (images_of self.new) IsSame }
        ensures time { OnOk result (length self.old.log < length self.new.log) }
        ensures call { CountsCall self.old.calls self.new.calls result }
        ensures count { CountsFaults self.old.calls.faults self.new.calls.faults result }
    {
        log_call(&mut self.calls, &mut self.log, request)
    }
}

impl Counted for MemoryDisk {
    ghost faults = { λ d. d.calls.faults };

    fn faults(&self) -> u64 {
        self.calls.faults()
    }
}

impl LeafDisk for MemoryDisk {
    ghost use Rattle.std.specs.Prelude.{Some, length, refl};
    ghost use Rattle.sporc_memory.specs.MemoryDisk.{bytes_of, images_of, bytes_are_image};
    ghost use Rattle.sporc_memory.specs.MemoryDisk.{disk_told};

    ghost told = { disk_told };

    ghost stored_is_image = { bytes_are_image };

    ghost images_are_told = { λ d image is. refl };

    ghost faults_are_told = { λ _. refl };

    fn len(&mut self) -> Result<u64, Failed>
        ensures length { IfOk result (λ n. n ≡ length (bytes_of self.old)) }
        ensures stored { Some (bytes_of self.new) ≡ Some (bytes_of self.old) }
        ensures images { CrashStep (length self.old.log) (length self.new.log) (images_of self.old)
            (images_of self.new) IsSame }
        ensures logged { LogsCall self.old.log self.new.log DiskRequest.Len result }
        ensures time { OnOk result (length self.old.log < length self.new.log) }
        ensures call { CountsCall self.old.calls self.new.calls result }
        ensures count { CountsFaults self.old.calls.faults self.new.calls.faults result }
    {
        self.enter(DiskRequest::Len)?;
        Ok(self.bytes.len() as u64)
    }

    fn read(&mut self, at: u64, buf: &mut [u8]) -> Result<(), Failed>
        requires { at + length buf.old ≤ length (bytes_of self.old) }
        ensures bytes { OnOk result
            (buf.new ≡ take (length buf.old) (drop at (bytes_of self.old))) }
        ensures stored { Some (bytes_of self.new) ≡ Some (bytes_of self.old) }
        ensures images { CrashStep (length self.old.log) (length self.new.log) (images_of self.old)
            (images_of self.new) IsSame }
        ensures logged { LogsCall self.old.log self.new.log
            (DiskRequest.Read at (length buf.old)) result }
        ensures time { OnOk result (length self.old.log < length self.new.log) }
        ensures call { CountsCall self.old.calls self.new.calls result }
        ensures count { CountsFaults self.old.calls.faults self.new.calls.faults result }
    {
        let len = buf.len();
        self.enter(DiskRequest::Read { at, len })?;
        let at = at as usize;
        buf.copy_from_slice(&self.bytes[at..at + len]);
        Ok(())
    }

    fn write_at(&mut self, at: u64, bytes: &[u8]) -> Result<(), Failed>
        requires { at + length bytes.now ≤ length (bytes_of self.old) }
        ensures written { OnOk result
            (Some (bytes_of self.new) ≡ Some (overwrite (bytes_of self.old) at bytes.now)) }
        ensures others { KeepsOutside at (length bytes.now) (Some (bytes_of self.old))
            (Some (bytes_of self.new)) }
        ensures images { CrashStep (length self.old.log) (length self.new.log) (images_of self.old)
            (images_of self.new) (IsSameOutside at (length bytes.now)) }
        ensures logged { LogsCall self.old.log self.new.log
            (DiskRequest.Write at bytes.now) result }
        ensures time { OnOk result (length self.old.log < length self.new.log) }
        ensures call { CountsCall self.old.calls self.new.calls result }
        ensures count { CountsFaults self.old.calls.faults self.new.calls.faults result }
    {
        let Ok(kept) = Vec::from_slice(self.alloc, bytes) else {
            return Err(self.calls.refuse());
        };
        let request = DiskRequest::Write {
            at,
            bytes: FileBytes::new(kept),
        };
        log_call(&mut self.calls, &mut self.log, request)?;
        write_over(&mut self.bytes, at as usize, bytes);
        Ok(())
    }

    fn sync(&mut self) -> Result<(), Failed>
        ensures durable { OnOk result
            ((image : List ℕ) → images_of self.new (length self.new.log) image
            → Some (bytes_of self.new) ≡ Some image) }
        ensures stored { Some (bytes_of self.new) ≡ Some (bytes_of self.old) }
        ensures images { CrashStep (length self.old.log) (length self.new.log) (images_of self.old)
            (images_of self.new) IsSame }
        ensures logged { LogsCall self.old.log self.new.log DiskRequest.Sync result }
        ensures time { OnOk result (length self.old.log < length self.new.log) }
        ensures call { CountsCall self.old.calls self.new.calls result }
        ensures count { CountsFaults self.old.calls.faults self.new.calls.faults result }
    {
        self.enter(DiskRequest::Sync)
    }
}

// Puts this byte in place of each that one of the calls wrote and none synced.
fn spoil(image: &mut [u8], log: &[DiskCall], byte: u8)
    ensures { (first : List ℕ)
        → IsSpoilt (record { bytes = image.old; unsynced = (state_after first log.now).unsynced })
        byte image.new }
{
    for at in 0..image.len() {
        if is_unsynced(log, at) {
            image[at] = byte;
        }
    }
}

// Whether one of the calls wrote the byte at a place, and none synced it.
fn is_unsynced(log: &[DiskCall], at: usize) -> bool
    ensures { (first : List ℕ)
        → IsTrue result ↔ IsUnsynced (state_after first log.now).unsynced at }
{
    let mut is_unsynced = false;
    for call in log {
        is_unsynced = is_unsynced_after(is_unsynced, call, at);
    }
    is_unsynced
}

// Whether the byte at a place was written and not synced, after one call more.
fn is_unsynced_after(is_unsynced: bool, call: &DiskCall, at: usize) -> bool
    ensures { (s : DiskState) → IsTrue is_unsynced ↔ IsUnsynced s.unsynced at
        → IsTrue result ↔ IsUnsynced (after_request s call.now.done call.now.request).unsynced at }
{
    match &call.request {
        DiskRequest::Write { at: from, bytes } => is_unsynced || is_in(*from, bytes.as_slice(), at),
        DiskRequest::Sync if call.done => false,
        _ => is_unsynced,
    }
}

// Whether a place is one of those that these bytes take from there on.
fn is_in(from: u64, bytes: &[u8], at: usize) -> bool
    ensures { IsTrue result ↔ (from ≤ at × at < from + length bytes.now) }
{
    let at = at as u64;
    if at < from {
        return false;
    }
    at - from < bytes.len() as u64
}

// Writes these bytes over those from a place on.
fn write_over(old: &mut Vec<u8>, at: usize, bytes: &[u8])
    requires { at + length bytes.now ≤ length old.old.items }
    ensures { old.new.items ≡ overwrite old.old.items at bytes.now }
{
    old[at..at + bytes.len()].copy_from_slice(bytes);
}
