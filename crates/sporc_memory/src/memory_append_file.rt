//! Files in memory that are appended to.

ghost use Rattle.std.specs.Prelude.{◌≡◌, ◌+◌, ◌++◌, ◌∷◌, ◌<◌, ◌≤◌, ◌↔◌, ℕ, List, [], Some, length};
ghost use Rattle.std.specs.Prelude.{map, take, vec_len, IfOk, IfErr, IfSome, IsTrue, OnOk, OnErr};
ghost use Rattle.std.specs.List.{All};
ghost use Rattle.std.specs.Vec.{vec_capacity};
ghost use Rattle.sporc_outside.specs.AppendFile.{GrowsBy, IsWholeFault, MayBeCut};
ghost use Rattle.sporc_memory.specs.CallsModel.{CountsCall};
ghost use Rattle.sporc_outside.specs.Counts.{CountsFaults};
ghost use Rattle.sporc_outside.specs.LeafDisk.{CrashStep, IsSame};
ghost use Rattle.sporc_memory.specs.Logged.{LogsCall};
ghost use Rattle.sporc_memory.specs.MemoryAppendFile.{AppendState, IsImage, ListsCall};
ghost use Rattle.sporc_memory.specs.MemoryAppendFile.{after_request, loose, some_images};
ghost use Rattle.sporc_memory.specs.MemoryAppendFile.{state_after, three_of};
ghost use Rattle.sporc_outside.specs.Told.{GoesTold};
ghost use Rattle.sporc_outside.specs.declared.file_fault.TheConstants.{MAX_FILE};

use crate::calls::Calls;
use crate::logged::log_call;
use crate::requests::{AppendCall, AppendRequest};
use sporc_outside::{AppendFile, Counted, Failed, FileBytes, FileFault, MAX_FILE};
use std::alloc::{AllocError, Global};
use std::marker::Model;

/// A file that is appended to, which keeps its bytes and tells them, with a log of all its calls,
/// from which what a crash after any of them may leave is read. A call that finds no memory fails.
#[derive(Drop)]
pub struct MemoryAppendFile {
    alloc: Global,
    name: FileBytes,
    first: Vec<u8>,
    bytes: Vec<u8>,
    log: Vec<AppendCall>,
    calls: Calls,
}

impl Model for MemoryAppendFile {
    ghost use Rattle.std.specs.Prelude.{◌≡◌};
    ghost use Rattle.sporc_memory.specs.MemoryAppendFile.{MemoryAppendFileModel, state_after};

    ghost Value = { MemoryAppendFileModel };

    ghost view = { λ f.
        record { name = f.name; first = f.first.items; log = f.log.items; calls = f.calls } };

    ghost invariant = { λ f. f.bytes.items ≡ (state_after f.first.items f.log.items).bytes };
}

impl MemoryAppendFile {
    ghost use Rattle.std.specs.List.{All};
    ghost use Rattle.sporc_memory.specs.MemoryAppendFile.{bytes_of, images_of, IsWrite};

    /// A file of this name, which holds these bytes, all of them synced. The listed calls fail.
    pub fn new(
        alloc: Global,
        name: FileBytes,
        bytes: Vec<u8>,
        calls: Calls,
    ) -> Result<MemoryAppendFile, AllocError>
        ensures ok { IfOk result
            (λ file. file ≡ record { name = name; first = bytes.items; log = []; calls = calls }) }
    {
        let first = Vec::from_slice(alloc, &bytes)?;
        Ok(MemoryAppendFile {
            alloc,
            name,
            first,
            bytes,
            log: Vec::new(alloc),
            calls,
        })
    }

    /// What a read gives.
    pub fn as_slice(&self) -> &[u8]
        ensures value { result.now ≡ bytes_of self.now }
    {
        self.bytes.as_slice()
    }

    /// What it held at first.
    pub fn first(&self) -> &[u8]
        ensures value { result.now ≡ self.now.first }
    {
        self.first.as_slice()
    }

    /// The calls so far, oldest first.
    pub fn log(&self) -> &[AppendCall]
        ensures value { result.now ≡ self.now.log }
    {
        self.log.as_slice()
    }

    /// Some of what a crash after the first so many of its calls may leave: for each append and
    /// each cut since the last sync that succeeded by then what was there, the same with half of
    /// what was appended, and with all of it; and last of them what a read gave.
    pub fn images(&self, calls: usize) -> Result<Vec<Vec<u8>>, AllocError>
        requires { calls ≤ length self.now.log }
        ensures listed { IfOk result (λ images. map (λ image. image.items) images.items
            ≡ some_images (state_after self.now.first (take calls self.now.log))) }
        ensures images { IfOk result
            (λ images. All (images_of self.now calls) (map (λ image. image.items) images.items)) }
    {
        list_images(self.alloc, &self.first, &self.log[..calls])
    }

    /// Its name, and the bytes that a read gives.
    pub fn into_parts(self) -> (FileBytes, Vec<u8>)
        ensures name { result.0 ≡ self.name }
        ensures bytes { result.1.items ≡ bytes_of self }
    {
        (self.name, self.bytes)
    }

    // Counts and logs a call that leaves the bytes.
    fn enter(&mut self, request: AppendRequest) -> Result<(), Failed>
        requires { IsWrite request → ⊥ }
        ensures logged { LogsCall self.old.log self.new.log request result }
        ensures bytes { bytes_of self.new ≡ bytes_of self.old }
        ensures name { self.new.name ≡ self.old.name }
        ensures images { CrashStep (length self.old.log) (length self.new.log) (images_of self.old)
            (images_of self.new) IsSame }
        ensures time { OnOk result (length self.old.log < length self.new.log) }
        ensures call { CountsCall self.old.calls self.new.calls result }
        ensures count { CountsFaults self.old.calls.faults self.new.calls.faults result }
    {
        log_call(&mut self.calls, &mut self.log, request)
    }
}

impl Counted for MemoryAppendFile {
    ghost faults = { λ f. f.calls.faults };

    fn faults(&self) -> u64 {
        self.calls.faults()
    }
}

impl AppendFile for MemoryAppendFile {
    ghost use Rattle.std.specs.Prelude.{Some, length, refl};
    ghost use Rattle.sporc_memory.specs.MemoryAppendFile.{bytes_of, images_of, bytes_are_image};
    ghost use Rattle.sporc_memory.specs.MemoryAppendFile.{file_told};

    ghost told = { file_told };

    ghost stored_is_image = { bytes_are_image };

    ghost images_are_told = { λ f image is. refl };

    ghost faults_are_told = { λ _. refl };

    fn read_whole(&mut self, alloc: Global) -> Result<Vec<u8>, FileFault>
        ensures bytes { IfOk result (λ bytes. bytes.items ≡ bytes_of self.old) }
        ensures within { IfOk result (λ bytes. length bytes.items ≤ MAX_FILE) }
        ensures err { IfErr result
            (IsWholeFault (Some (bytes_of self.old)) self.old.calls.faults self.new.calls.faults) }
        ensures stored { Some (bytes_of self.new) ≡ Some (bytes_of self.old) }
        ensures name { Some self.new.name ≡ Some self.old.name }
        ensures images { CrashStep (length self.old.log) (length self.new.log) (images_of self.old)
            (images_of self.new) IsSame }
        ensures call { CountsCall self.old.calls self.new.calls result }
        ensures kept { self.old.calls.faults ≤ self.new.calls.faults }
    {
        self.enter(AppendRequest::Read)?;
        let len = self.bytes.len() as u64;
        if len > MAX_FILE {
            return Err(FileFault::TooLong(len));
        }
        Ok(Vec::from_slice(alloc, &self.bytes)?)
    }

    fn append(&mut self, bytes: &[u8]) -> Result<(), Failed>
        ensures appended { OnOk result
            (Some (bytes_of self.new) ≡ Some (bytes_of self.old ++ bytes.now)) }
        ensures within { OnOk result (length (bytes_of self.new) ≤ MAX_FILE) }
        ensures prefix { OnErr result
            (GoesTold (GrowsBy bytes.now) (Some (bytes_of self.old)) (Some (bytes_of self.new))) }
        ensures name { Some self.new.name ≡ Some self.old.name }
        ensures images { CrashStep (length self.old.log) (length self.new.log) (images_of self.old)
            (images_of self.new) (GrowsBy bytes.now) }
        ensures time { OnOk result (length self.old.log < length self.new.log) }
        ensures call { CountsCall self.old.calls self.new.calls result }
        ensures count { CountsFaults self.old.calls.faults self.new.calls.faults result }
    {
        let Some(kept) = room_for(self.alloc, &mut self.bytes, bytes) else {
            return Err(self.calls.refuse());
        };
        log_call(
            &mut self.calls,
            &mut self.log,
            AppendRequest::Append { bytes: kept },
        )?;
        put_behind(&mut self.bytes, bytes);
        Ok(())
    }

    fn cut(&mut self, len: u64) -> Result<(), Failed>
        requires { len ≤ length (bytes_of self.old) }
        ensures cut { OnOk result (Some (bytes_of self.new) ≡ Some (take len (bytes_of self.old))) }
        ensures uncut { OnErr result
            (GoesTold (MayBeCut len) (Some (bytes_of self.old)) (Some (bytes_of self.new))) }
        ensures name { Some self.new.name ≡ Some self.old.name }
        ensures images { CrashStep (length self.old.log) (length self.new.log) (images_of self.old)
            (images_of self.new) (MayBeCut len) }
        ensures time { OnOk result (length self.old.log < length self.new.log) }
        ensures call { CountsCall self.old.calls self.new.calls result }
        ensures count { CountsFaults self.old.calls.faults self.new.calls.faults result }
    {
        log_call(&mut self.calls, &mut self.log, AppendRequest::Cut { len })?;
        self.bytes.truncate(len as usize);
        Ok(())
    }

    fn sync(&mut self) -> Result<(), Failed>
        ensures durable { OnOk result
            ((image : List ℕ) → images_of self.new (length self.new.log) image
            → Some (bytes_of self.new) ≡ Some image) }
        ensures stored { Some (bytes_of self.new) ≡ Some (bytes_of self.old) }
        ensures name { Some self.new.name ≡ Some self.old.name }
        ensures images { CrashStep (length self.old.log) (length self.new.log) (images_of self.old)
            (images_of self.new) IsSame }
        ensures time { OnOk result (length self.old.log < length self.new.log) }
        ensures call { CountsCall self.old.calls self.new.calls result }
        ensures count { CountsFaults self.old.calls.faults self.new.calls.faults result }
    {
        self.enter(AppendRequest::Sync)
    }
}

// Some of what a crash after these calls may leave of a file of these bytes.
fn list_images(alloc: Global, first: &[u8], log: &[AppendCall]) -> Result<Vec<Vec<u8>>, AllocError>
    ensures listed { IfOk result (λ images.
        map (λ image. image.items) images.items ≡ some_images (state_after first.now log.now)) }
    ensures images { IfOk result (λ images.
        All (IsImage (state_after first.now log.now)) (map (λ image. image.items) images.items)) }
{
    let mut bytes = Vec::from_slice(alloc, first)?;
    let mut images = Vec::new(alloc);
    for call in log {
        list_call(alloc, call, &bytes, &mut images)?;
        change(call, &mut bytes)?;
    }
    images.push(bytes)?;
    Ok(images)
}

// Lists what else a crash may leave after a call on a file of these bytes.
fn list_call(
    alloc: Global,
    call: &AppendCall,
    bytes: &[u8],
    images: &mut Vec<Vec<u8>>,
) -> Result<(), AllocError>
    ensures { ListsCall bytes.now call.now (map (λ image. image.items) images.old.items)
        (map (λ image. image.items) images.new.items) result }
{
    match &call.request {
        AppendRequest::Append { bytes: more } => push_loose(alloc, images, bytes, more.as_slice()),
        AppendRequest::Cut { len } => push_cut(alloc, images, bytes, *len),
        AppendRequest::Sync if call.done => {
            images.clear();
            Ok(())
        }
        _ => Ok(()),
    }
}

// Makes of bytes what a read gives after a call.
fn change(call: &AppendCall, bytes: &mut Vec<u8>) -> Result<(), AllocError>
    ensures { (s : AppendState) → s.bytes ≡ bytes.old.items
        → OnOk result
        (bytes.new.items ≡ (after_request s call.now.done call.now.request).bytes) }
{
    match &call.request {
        AppendRequest::Append { bytes: more } if call.done => {
            Ok(bytes.extend_from_slice(more.as_slice())?)
        }
        AppendRequest::Cut { len } if call.done => {
            bytes.truncate(*len as usize);
            Ok(())
        }
        _ => Ok(()),
    }
}

// Lists bytes as they are, with half of those that may stand behind them, and with all.
fn push_loose(
    alloc: Global,
    images: &mut Vec<Vec<u8>>,
    bytes: &[u8],
    behind: &[u8],
) -> Result<(), AllocError>
    ensures { OnOk result (map (λ image. image.items) images.new.items
        ≡ map (λ image. image.items) images.old.items ++ three_of (loose bytes.now behind.now)) }
{
    push_joined(alloc, images, bytes, &[])?;
    push_joined(alloc, images, bytes, &behind[..behind.len() / 2])?;
    push_joined(alloc, images, bytes, behind)
}

// Lists the first so many bytes, and all.
fn push_cut(
    alloc: Global,
    images: &mut Vec<Vec<u8>>,
    bytes: &[u8],
    len: u64,
) -> Result<(), AllocError>
    ensures { OnOk result (map (λ image. image.items) images.new.items
        ≡ (map (λ image. image.items) images.old.items ++ three_of (loose (take len bytes.now) []))
        ++ three_of (loose bytes.now [])) }
{
    let mut front = Vec::from_slice(alloc, bytes)?;
    front.truncate(len as usize);
    push_loose(alloc, images, &front, &[])?;
    push_loose(alloc, images, bytes, &[])
}

// Lists bytes with those behind them.
fn push_joined(
    alloc: Global,
    images: &mut Vec<Vec<u8>>,
    bytes: &[u8],
    behind: &[u8],
) -> Result<(), AllocError>
    ensures { OnOk result (map (λ image. image.items) images.new.items
        ≡ map (λ image. image.items) images.old.items ++ (bytes.now ++ behind.now) ∷ []) }
{
    let all = joined(alloc, bytes, behind)?;
    images.push(all)?;
    Ok(())
}

// Bytes with those behind them.
fn joined(alloc: Global, bytes: &[u8], behind: &[u8]) -> Result<Vec<u8>, AllocError>
    ensures { IfOk result (λ all. all.items ≡ bytes.now ++ behind.now) }
{
    let mut all = Vec::from_slice(alloc, bytes)?;
    all.extend_from_slice(behind)?;
    Ok(all)
}

// Whether so many more bytes stay within the limit of a file.
fn has_room(bytes: &[u8], more: &[u8]) -> bool
    ensures { IsTrue result ↔ (length bytes.now + length more.now ≤ MAX_FILE) }
{
    let len = bytes.len() as u64;
    len <= MAX_FILE && more.len() as u64 <= MAX_FILE - len
}

// Takes the memory of bytes that are to be appended, and a copy of them for the log, unless they
// make the file too long.
fn room_for(alloc: Global, bytes: &mut Vec<u8>, more: &[u8]) -> Option<FileBytes>
    ensures copy { IfSome result (λ kept. kept ≡ more.now) }
    ensures room { IfSome result (λ _. (length bytes.new.items + length more.now ≤ MAX_FILE)
        × (vec_len bytes.new + length more.now ≤ vec_capacity bytes.new)) }
    ensures unchanged { bytes.new.items ≡ bytes.old.items }
{
    if !has_room(bytes, more) || bytes.reserve(more.len()).is_err() {
        return None;
    }
    let copy = Vec::from_slice(alloc, more).ok()?;
    Some(FileBytes::new(copy))
}

// Appends bytes whose memory is taken.
fn put_behind(bytes: &mut Vec<u8>, more: &[u8])
    requires { vec_len bytes.old + length more.now ≤ vec_capacity bytes.old }
    ensures { bytes.new.items ≡ bytes.old.items ++ more.now }
{
    let _ = bytes.extend_from_slice(more);
}
