//! The entry of a pending item, before it is signed.

ghost use Rattle.std.specs.Prelude.{◌≡◌, ◌+◌, ◌≤◌, length, is_some, true, Some, IfOk, OnOk};
ghost use Rattle.sporc_cipher.specs.Mask.{mask_of};
ghost use Rattle.sporc_delta.specs.Format.{delta_bytes};
ghost use Rattle.sporc_delta.specs.Typed.{IsTypedDelta};
ghost use Rattle.sporc_entry.specs.ChangeBody.{IsChangeBody};
ghost use Rattle.sporc_entry.specs.Entry.{IsHeader, author_device};
ghost use Rattle.sporc_entry.specs.Version.{version_of};
ghost use Rattle.sporc_epoch.specs.Sealing.{body_sealed};
ghost use Rattle.sporc_epoch.specs.Streams.{entry_stream};
ghost use Rattle.sporc_head.specs.declared.limits.TheConstants.{MAX_ENTRIES};
ghost use Rattle.sporc_head.specs.History.{count_of, epoch_of, hash_of, roster_of};
ghost use Rattle.sporc_line.specs.Good.{Good};
ghost use Rattle.sporc_line.specs.Keys.{epoch_key};
ghost use Rattle.sporc_member.specs.Roster.{key_of as key_of_device};
ghost use Rattle.sporc_client.specs.Contents.{CanTake, IsSpelled};
ghost use Rattle.sporc_client.specs.Entries.{body_of, sealing_of, unsigned_entry};
ghost use Rattle.sporc_client.specs.Typed.{IsTypedChange};
ghost use Rattle.sporc_client.specs.declared.pending.Pending.TheVariants as items;

use super::due::kind_of;
use crate::pending::Pending;
use sporc_base::{Bytes, Memory};
use sporc_cipher::mask;
use sporc_delta::Delta;
use sporc_entry::{ChangeBody, Entry, Header, version_of, write_change};
use sporc_epoch::{SealFault, Sealing, entry_stream, seal_change_at};
use sporc_line::Line;
use sporc_member::Change;
use std::alloc::{AllocError, Global};

// The next entry of an item, unsigned, by the leaf that is to sign it and 32 random bytes, which
// are the key of the next epoch if it is a change.
pub(crate) fn unsigned_entry(
    alloc: Global,
    line: &Line,
    item: &Pending,
    leaf: u32,
    new_key: &[u8; 32],
) -> Result<Entry, Memory>
    requires { CanTake line.now item.now }
    ensures value { IfOk result (λ e. e ≡ unsigned_entry line.now leaf new_key.now item.now) }
    ensures header { IfOk result (λ e. IsHeader e.header) }
    ensures spelled { OnOk result (IsSpelled line.now leaf new_key.now item.now) }
{
    let header = next_header(line, leaf, kind_of(item));
    let body = entry_body(alloc, line, item, leaf, new_key)?;
    Ok(Entry {
        header,
        body,
        signature: Bytes::new(Vec::new(alloc)),
    })
}

// What stands before the body of the device's next entry of this kind.
fn next_header(line: &Line, leaf: u32, kind: u8) -> Header
    requires good { Good line.now.genesis line.now.kit line.now.entries }
    requires limit { length line.now.entries + 1 ≤ MAX_ENTRIES }
    requires range { (1 ≤ kind) × (kind ≤ 2) }
    requires live { is_some
        (key_of_device (roster_of line.now.genesis line.now.entries) line.now.kit.me) ≡ true }
    ensures document { result.document ≡ line.now.genesis.document }
    ensures version { result.version
        ≡ version_of (roster_of line.now.genesis line.now.entries).upgraded }
    ensures author { author_device result ≡ line.now.kit.me }
    ensures number { result.number ≡ count_of line.now.kit.me line.now.entries + 1 }
    ensures base { result.base ≡ length line.now.entries }
    ensures base_hash { result.base_hash ≡ hash_of line.now.genesis line.now.entries }
    ensures epoch { result.epoch ≡ epoch_of line.now.entries }
    ensures leaf { result.leaf ≡ leaf }
    ensures kind { result.kind ≡ kind }
    ensures is_header { IsHeader result }
{
    let heads = line.heads();
    let roster = heads.roster();
    let me = line.own_device();
    Header {
        version: version_of(roster.upgraded()),
        document: heads.genesis().document,
        author: me.member,
        device: me.number,
        number: heads.count_of(me.member, me.number) + 1,
        base: line.len(),
        base_hash: line.hash(),
        epoch: heads.epoch(),
        leaf,
        kind,
    }
}

// The body of the entry of an item.
fn entry_body(
    alloc: Global,
    line: &Line,
    item: &Pending,
    leaf: u32,
    new_key: &[u8; 32],
) -> Result<Bytes, Memory>
    requires { CanTake line.now item.now }
    ensures value { IfOk result (λ body. body ≡ body_of line.now leaf new_key.now item.now) }
    ensures spelled { OnOk result (IsSpelled line.now leaf new_key.now item.now) }
{
    let Some(key) = line.key() else {
        unreachable!()
    };
    match item {
        Pending::Edit(delta) => edit_body(key, entry_stream(line.own_device(), leaf), delta),
        Pending::Change(change) => change_body(alloc, line, key, change, leaf, new_key),
    }
}

// The bytes of a delta, masked under the key of its epoch.
fn edit_body(key: &[u8; 32], stream: u64, delta: &Delta) -> Result<Bytes, Memory>
    ensures value { IfOk result (λ body. body ≡ mask_of key.now stream (delta_bytes delta.now)) }
    ensures typed { OnOk result (IsTypedDelta delta.now) }
{
    let mut bytes = delta.encode()?;
    mask(key, stream, bytes.as_mut_slice());
    Ok(Bytes::new(bytes))
}

// The bytes of the body of a change.
fn change_body(
    alloc: Global,
    line: &Line,
    old_key: &[u8; 32],
    change: &Change,
    leaf: u32,
    new_key: &[u8; 32],
) -> Result<Bytes, Memory>
    requires can_take { CanTake line.now (items.Change change.now) }
    requires key { epoch_key line.now.genesis line.now.kit line.now.entries
        (epoch_of line.now.entries) ≡ Some old_key.now }
    ensures value { IfOk result
        (λ body. body ≡ body_of line.now leaf new_key.now (items.Change change.now)) }
    ensures spelled { OnOk result
        (IsSpelled line.now leaf new_key.now (items.Change change.now)) }
{
    let body = seal(alloc, line, old_key, change, leaf, new_key)?;
    let bytes = write_change(alloc, &body)?;
    Ok(Bytes::new(bytes))
}

// The body of a change, with the new key sealed for each member after it.
fn seal(
    alloc: Global,
    line: &Line,
    old_key: &[u8; 32],
    change: &Change,
    leaf: u32,
    new_key: &[u8; 32],
) -> Result<ChangeBody, Memory>
    requires can_take { CanTake line.now (items.Change change.now) }
    requires key { epoch_key line.now.genesis line.now.kit line.now.entries
        (epoch_of line.now.entries) ≡ Some old_key.now }
    ensures value { IfOk result (λ body. body
        ≡ body_sealed (sealing_of line.now leaf new_key.now change.now) line.now.kit.pairs) }
    ensures spelled { IfOk result
        (IsChangeBody (version_of (roster_of line.now.genesis line.now.entries).upgraded)) }
{
    let heads = line.heads();
    let members = heads.roster().members_after(change)?;
    let _subject = subject_of(change);
    let sealing = Sealing {
        change,
        members: members.as_slice(),
        document: &heads.genesis().document,
        stream: entry_stream(line.own_device(), leaf),
        epoch: heads.epoch(),
        old: old_key,
        new: new_key,
    };
    match seal_change_at(alloc, &sealing, line.pairs()) {
        Ok(body) => Ok(body),
        Err(SealFault::Memory) => Err(AllocError),
        Err(SealFault::NoPairKey(_)) => unreachable!(),
    }
}

// The number of the member that a change is of, 0 if it is of all. What the change says is in
// range.
fn subject_of(change: &Change) -> u16
    ensures typed { IsTypedChange change.now }
{
    match change {
        Change::Add { member, key, .. } => {
            let _len = key_len(key);
            *member
        }
        Change::Remove { member } | Change::SetRole { member, .. } => *member,
        Change::AddDevice {
            member,
            device,
            key,
        } => {
            let _sizes = (*device, key_len(key));
            *member
        }
        Change::DropDevice { member, device } => {
            let _size = *device;
            *member
        }
        Change::Upgrade => 0,
    }
}

// The length of a public key.
fn key_len(key: &[u8; 56]) -> usize
    ensures { length key.now ≡ 56 }
{
    key.len()
}
