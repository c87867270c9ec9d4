//! The entries that a script signs for rogues: as a client's history says, but for what the script
//! says otherwise.

ghost use Rattle.std.specs.Prelude.{◌≡◌, ℕ, ◌+◌, ◌<◌, ◌≤◌, ◌^◌, ◌==◌, true, not, List, filter};
ghost use Rattle.std.specs.Prelude.{length, map, Option, IfOk, OnOk, option_map};
ghost use Rattle.std.specs.Option.{option_to_list};
ghost use Rattle.lms_tree.specs.LmsType.{height_of};
ghost use Rattle.sporc_client.specs.ClientModel.{state_of};
ghost use Rattle.sporc_client.specs.Run.{Setup};
ghost use Rattle.sporc_entry.specs.ChangeBody.{change_body_bytes};
ghost use Rattle.sporc_entry.specs.Entry.{entry_bytes, signed_string};
ghost use Rattle.sporc_entry.specs.Version.{fits_version};
ghost use Rattle.sporc_epoch.specs.Keys.{pairs_in};
ghost use Rattle.sporc_head.specs.History.{roster_of};
ghost use Rattle.sporc_member.specs.Device.{first_device};
ghost use Rattle.sporc_member.specs.declared.limits.TheConstants.{MAX_MEMBERS};
ghost use Rattle.sporc_script.specs.declared.sign.Suffix.{Suffix};
ghost use Rattle.sporc_script.specs.declared.sign.What.TheVariants as whats;
ghost use Rattle.sporc_play.specs.declared.playing.TheConstants.{MAX_SCRIPT};
ghost use Rattle.sporc_play.specs.Forged.{IsSmallBody, IsSmallChange, base_by, derived_pairs};
ghost use Rattle.sporc_play.specs.Forged.{epoch_by, device_in, first_flipped, forged_body};
ghost use Rattle.sporc_play.specs.Forged.{forged_change, forged_entry, forged_header, key_there};
ghost use Rattle.sporc_play.specs.Forged.{kind_of, leaf_by, masked, number_by, sealed_for};
ghost use Rattle.sporc_play.specs.Forged.{signed_by, spoiled, unsigned_by, value_at, version_by};
ghost use Rattle.sporc_play.specs.Forged.{with_derived, wrap_flipped};
ghost use Rattle.sporc_play.specs.Scene.{leaf_after, what_size};
ghost use Rattle.sporc_play.specs.Seats.{AreDrawn};
ghost use Rattle.sporc_play.specs.Stage.{ForRogue, IsCastOf};

use crate::cast::Cast;
use crate::derived::{pair_key, random_of};
use crate::seat::PlayClient;
use lms_leaf::LeafFault;
use lms_sign::{Signer, Ticket};
use sporc_base::{Bytes, Memory};
use sporc_cipher::mask;
use sporc_client::{first_half, second_half};
use sporc_delta::Delta;
use sporc_entry::{
    CHANGE, ChangeBody, DEVICES_VERSION, EDIT, Entry, Header, Wrap, Wraps, signed_part, version_of,
    write_change, write_entry,
};
use sporc_epoch::{Pairs, SealFault, Sealing, seal_change_at, stream_of};
use sporc_member::{Change, Device, FIRST_DEVICE};
use sporc_memory::MemoryDisk;
use sporc_script::{Forgery, Insertion, Suffix, What};
use std::alloc::{AllocError, Global};
use std::collections::BTreeMap;

/// The entry that a rogue signs for the t-th time, by its next leaf, unless its leaves are used up.
pub fn forge(
    alloc: Global,
    signer: &mut Signer<MemoryDisk>,
    cast: &Cast,
    client: &PlayClient,
    forgery: &Forgery,
    t: u32,
) -> Result<Option<Vec<u8>>, Memory>
    requires limit { t < 2 ^ 24 }
    requires size_limit { what_size forgery.now.signed.what ≤ MAX_SCRIPT }
    requires leaves { AreDrawn signer.old.key signer.old.leaves.next signer.old.leaves }
    ensures entry { IfOk result (λ made. ForRogue signer.old.key forgery.now.member cast.now
        (λ s. option_map (λ v. v.items) made ≡ forged_entry s (state_of client.now) forgery.now t
        (leaf_after signer.old.key signer.old.leaves.next))) }
    ensures key { signer.new.key ≡ signer.old.key }
    ensures drawn { IfOk result (λ made. AreDrawn signer.old.key
        (signer.old.leaves.next + length (option_to_list made)) signer.new.leaves) }
{
    match signer.draw() {
        Ok(ticket) => {
            let random = random_of(Device::first(forgery.member), t);
            let bytes = sign_with(alloc, signer, ticket, cast, client, forgery, &random)?;
            Ok(Some(bytes))
        }
        Err(LeafFault::Exhausted(_)) => Ok(None),
        Err(LeafFault::DiskFault) => Err(AllocError),
    }
}

// The entry that a rogue signs by the ticket's leaf, with 64 random bytes.
fn sign_with(
    alloc: Global,
    signer: &mut Signer<MemoryDisk>,
    ticket: Ticket,
    cast: &Cast,
    client: &PlayClient,
    forgery: &Forgery,
    random: &[u8; 64],
) -> Result<Vec<u8>, Memory>
    requires limit { what_size forgery.now.signed.what ≤ MAX_SCRIPT }
    requires ticket_limit { ticket < 2 ^ height_of signer.old.key.lms }
    ensures entry { IfOk result (λ bytes. (s : Setup)
        → signer.old.key ≡ s.private (first_device forgery.now.member) → IsCastOf s cast.now
        → bytes.items ≡ signed_by s (state_of client.now) forgery.now random.now ticket) }
    ensures unchanged { signer.new ≡ signer.old }
{
    let draft = unsigned_by(alloc, cast, client, forgery, ticket.leaf(), random);
    match draft {
        Ok((entry, message)) => {
            let randomizer = first_half(random);
            match signer.sign(alloc, ticket, &randomizer, message.as_slice()) {
                Ok(signature) => with_signature(alloc, entry, signature),
                Err((ticket, memory)) => {
                    ticket.give_up();
                    Err(memory)
                }
            }
        }
        Err(memory) => {
            ticket.give_up();
            Err(memory)
        }
    }
}

// An entry that is not signed yet, and what is signed. Its header names this leaf, if the script
// names no other.
fn unsigned_by(
    alloc: Global,
    cast: &Cast,
    client: &PlayClient,
    forgery: &Forgery,
    leaf: u32,
    random: &[u8; 64],
) -> Result<(Entry, Vec<u8>), Memory>
    requires { what_size forgery.now.signed.what ≤ MAX_SCRIPT }
    ensures entry { IfOk result (λ draft. (s : Setup) → IsCastOf s cast.now
        → draft.0 ≡ unsigned_by s (state_of client.now) forgery.now random.now leaf) }
    ensures message { IfOk result (λ draft. draft.1.items ≡ signed_string draft.0) }
    ensures version { IfOk result
        (λ draft. fits_version draft.0.header.version draft.0.header.device ≡ true) }
    ensures within { IfOk result (λ draft. length draft.0.body < 2 ^ 32) }
{
    let header = forged_header(client, forgery, leaf);
    let new_key = second_half(random);
    let body = forged_body(alloc, cast, client, forgery, &header, &new_key)?;
    let entry = Entry {
        header,
        body: Bytes::new(body),
        signature: Bytes::new(Vec::new(alloc)),
    };
    let message = signed_part(alloc, &entry)?;
    Ok((entry, message))
}

// The bytes of an entry with this signature.
fn with_signature(alloc: Global, mut entry: Entry, signature: Vec<u8>) -> Result<Vec<u8>, Memory>
    requires version { fits_version entry.header.version entry.header.device ≡ true }
    requires body_limit { length entry.body < 2 ^ 32 }
    requires signature_limit { length signature.items < 2 ^ 32 }
    ensures { IfOk result
        (λ bytes. bytes.items ≡ entry_bytes (record entry { signature = signature.items })) }
{
    entry.signature = Bytes::new(signature);
    write_entry(alloc, &entry)
}

// ---- the header

// What stands before the body of a rogue's entry.
fn forged_header(client: &PlayClient, forgery: &Forgery, leaf: u32) -> Header
    ensures { result ≡ forged_header (state_of client.now) forgery.now leaf }
{
    let heads = client.heads();
    let suffix = forgery.signed.suffix;
    let version = version_by(suffix, client.roster().upgraded());
    let base = base_by(suffix, heads.len());
    Header {
        version,
        document: heads.genesis().document,
        author: forgery.member,
        device: device_in(suffix, version),
        number: number_by(suffix, heads.count_of(forgery.member, FIRST_DEVICE) + 1),
        base,
        base_hash: value_at(client, base),
        epoch: epoch_by(suffix, heads.epoch()),
        leaf: leaf_by(suffix, leaf),
        kind: kind_of(&forgery.signed.what),
    }
}

fn version_by(suffix: Option<Suffix>, upgraded: bool) -> u8
    ensures { result ≡ version_by suffix upgraded }
{
    match suffix {
        Some(Suffix::Version(k)) => version_of(k == DEVICES_VERSION),
        _ => version_of(upgraded),
    }
}

fn device_in(suffix: Option<Suffix>, version: u8) -> u8
    ensures { result ≡ device_in suffix version }
{
    match suffix {
        Some(Suffix::Device(number)) if version == DEVICES_VERSION => number,
        _ => FIRST_DEVICE,
    }
}

fn number_by(suffix: Option<Suffix>, number: u32) -> u32
    ensures { result ≡ number_by suffix number }
{
    match suffix {
        Some(Suffix::Number(k)) => k,
        _ => number,
    }
}

fn base_by(suffix: Option<Suffix>, base: u32) -> u32
    ensures { result ≡ base_by suffix base }
{
    match suffix {
        Some(Suffix::Base(k)) => k,
        _ => base,
    }
}

fn epoch_by(suffix: Option<Suffix>, epoch: u32) -> u32
    ensures { result ≡ epoch_by suffix epoch }
{
    match suffix {
        Some(Suffix::Epoch(k)) => k,
        _ => epoch,
    }
}

fn leaf_by(suffix: Option<Suffix>, leaf: u32) -> u32
    ensures { result ≡ leaf_by suffix leaf }
{
    match suffix {
        Some(Suffix::Leaf(k)) => k,
        _ => leaf,
    }
}

fn kind_of(what: &What) -> u8
    ensures { result ≡ kind_of what.now }
{
    match what {
        What::Insert(_) | What::Raw(_) => EDIT,
        What::Change(_) => CHANGE,
    }
}

// The chain's value after so many entries, or zeros if there are not so many.
fn value_at(client: &PlayClient, base: u32) -> [u8; 32]
    ensures { result ≡ value_at (state_of client.now) base }
{
    let heads = client.heads();
    if base <= heads.len() {
        heads.hash_at(base)
    } else {
        [0; 32]
    }
}

// ---- the body

// The body of a rogue's entry.
fn forged_body(
    alloc: Global,
    cast: &Cast,
    client: &PlayClient,
    forgery: &Forgery,
    header: &Header,
    new_key: &[u8; 32],
) -> Result<Vec<u8>, Memory>
    requires { what_size forgery.now.signed.what ≤ MAX_SCRIPT }
    ensures value { IfOk result (λ body. (s : Setup) → IsCastOf s cast.now
        → body.items ≡ forged_body s (state_of client.now) forgery.now.signed.suffix header.now
        new_key.now forgery.now.signed.what) }
    ensures within { IfOk result (λ body. length body.items < 2 ^ 32) }
{
    match &forgery.signed.what {
        What::Insert(insertion) => insertion_body(alloc, client, header, insertion),
        What::Raw(payload) => {
            let payload = Vec::from_slice(alloc, payload.as_slice())?;
            Ok(masked(client, header, payload))
        }
        What::Change(change) => {
            let change = cast.member_change(alloc, change)?;
            change_body(
                alloc,
                client,
                forgery.signed.suffix,
                header,
                &change,
                new_key,
            )
        }
    }
}

// A payload, masked under the key of the history's epoch.
fn masked(client: &PlayClient, header: &Header, mut payload: Vec<u8>) -> Vec<u8>
    ensures value { result.items ≡ masked (state_of client.now) header.now payload.items }
    ensures size { length result.items ≡ length payload.items }
{
    let key = key_there(client);
    mask(&key, stream_of(header), payload.as_mut_slice());
    payload
}

// The key of the history's epoch, or zeros if the history removes the client's member.
fn key_there(client: &PlayClient) -> [u8; 32]
    ensures { result ≡ key_there (state_of client.now) }
{
    match client.key() {
        Some(key) => *key,
        None => [0; 32],
    }
}

// The body of an insertion. It stands at the text's end, if its place lies behind it.
fn insertion_body(
    alloc: Global,
    client: &PlayClient,
    header: &Header,
    insertion: &Insertion,
) -> Result<Vec<u8>, Memory>
    requires { what_size (whats.Insert insertion.now) ≤ MAX_SCRIPT }
    ensures value { IfOk result
        (λ body. (s : Setup) (suffix : Option Suffix) (new : List ℕ) → body.items
        ≡ forged_body s (state_of client.now) suffix header.now new (whats.Insert insertion.now)) }
    ensures within { IfOk result (λ body. length body.items < 2 ^ 32) }
{
    let len = client.committed_len();
    let at = insertion.at.min(len);
    let delta = Delta::insert_at(alloc, len, at, insertion.text.as_str())?;
    let payload = delta.encode()?;
    Ok(masked(client, header, payload))
}

// The body of a change, with what is wrong about it.
fn change_body(
    alloc: Global,
    client: &PlayClient,
    suffix: Option<Suffix>,
    header: &Header,
    change: &Change,
    new_key: &[u8; 32],
) -> Result<Vec<u8>, Memory>
    requires { IsSmallChange change.now }
    ensures value { IfOk result (λ body. body.items ≡ change_body_bytes
        (spoiled suffix (forged_change (state_of client.now) header.now change.now new_key.now))) }
    ensures within { IfOk result (λ body. length body.items < 2 ^ 32) }
{
    let body = sealed(alloc, client, header, change, &key_there(client), new_key)?;
    let body = spoiled(alloc, suffix, body)?;
    write_change(alloc, &body)
}

// The body of a change, with the new key sealed for each member after it.
fn sealed(
    alloc: Global,
    client: &PlayClient,
    header: &Header,
    change: &Change,
    old_key: &[u8; 32],
    new_key: &[u8; 32],
) -> Result<ChangeBody, Memory>
    requires small { IsSmallChange change.now }
    requires old { old_key.now ≡ key_there (state_of client.now) }
    ensures value { IfOk result
        (λ body. body ≡ forged_change (state_of client.now) header.now change.now new_key.now) }
    ensures small { IfOk result IsSmallBody }
{
    let heads = client.heads();
    let _count = heads.len();
    let members = sealed_for(alloc, client, change)?;
    let pairs = pairs_with(alloc, header.author, members.as_slice())?;
    let sealing = Sealing {
        change,
        members: members.as_slice(),
        document: &heads.genesis().document,
        stream: stream_of(header),
        epoch: heads.epoch(),
        old: old_key,
        new: new_key,
    };
    match seal_change_at(alloc, &sealing, &pairs) {
        Ok(body) => Ok(body),
        Err(SealFault::Memory) => Err(AllocError),
        Err(SealFault::NoPairKey(_)) => unreachable!(),
    }
}

// The members after a change, or those before it if they refuse it.
fn sealed_for(alloc: Global, client: &PlayClient, change: &Change) -> Result<Vec<u16>, Memory>
    ensures value { IfOk result (λ members. members.items ≡ sealed_for
        (roster_of client.now.opening.genesis (state_of client.now).entries) change.now) }
    ensures within { IfOk result (λ members. length members.items ≤ MAX_MEMBERS) }
{
    let _events = client.journal();
    let _genesis = client.heads().genesis();
    let roster = client.roster();
    match roster.test(change) {
        Ok(()) => roster.members_after(change),
        Err(_) => Vec::from_slice(alloc, roster.members()),
    }
}

// The derived keys that a rogue shares with these members.
fn pairs_with(alloc: Global, rogue: u16, members: &[u16]) -> Result<Pairs, Memory>
    ensures { IfOk result (λ pairs. pairs_in pairs ≡ derived_pairs rogue members.now) }
{
    let mut pairs = BTreeMap::new(alloc);
    for member in members {
        put_derived(&mut pairs, rogue, *member)?;
    }
    Ok(pairs)
}

// Adds the derived key that a rogue shares with a member.
#[tactic(auto, using(sporc_epoch::proofs::PairMaps::pairs_put))]
fn put_derived(pairs: &mut Pairs, rogue: u16, member: u16) -> Result<(), Memory>
    ensures { OnOk result (pairs_in pairs.new ≡ with_derived rogue (pairs_in pairs.old) member) }
{
    pairs.insert(member, pair_key(rogue, member))?;
    Ok(())
}

// ---- what is wrong about a change

fn spoiled(
    alloc: Global,
    suffix: Option<Suffix>,
    mut body: ChangeBody,
) -> Result<ChangeBody, Memory>
    ensures { IfOk result (λ new. new ≡ spoiled suffix body) }
{
    match suffix {
        Some(Suffix::Wrap(member)) => {
            body.wraps = flipped_wraps(alloc, body.wraps.as_slice(), member)?;
            Ok(body)
        }
        Some(Suffix::Drop(member)) => {
            body.wraps = other_wraps(alloc, body.wraps.as_slice(), member)?;
            Ok(body)
        }
        Some(Suffix::Commit) => {
            body.commitment = first_flipped(&body.commitment);
            Ok(body)
        }
        Some(Suffix::Previous) => {
            body.previous = first_flipped(&body.previous);
            Ok(body)
        }
        _ => Ok(body),
    }
}

// The wraps, that of a member flipped.
fn flipped_wraps(alloc: Global, wraps: &[Wrap], member: u16) -> Result<Wraps, Memory>
    ensures { IfOk result (λ new. new ≡ map (wrap_flipped member) wraps.now) }
{
    let mut kept = Vec::new(alloc);
    for wrap in wraps {
        kept.push(flipped_wrap(wrap, member))?;
    }
    Ok(Wraps::new(kept))
}

// The wrap, with a bit changed if it is this member's.
fn flipped_wrap(wrap: &Wrap, member: u16) -> Wrap
    ensures { result ≡ wrap_flipped member wrap.now }
{
    if wrap.member == member {
        Wrap {
            member: wrap.member,
            sealed: first_flipped(&wrap.sealed),
        }
    } else {
        *wrap
    }
}

// The wraps but for that of a member.
fn other_wraps(alloc: Global, wraps: &[Wrap], member: u16) -> Result<Wraps, Memory>
    ensures { IfOk result (λ new. new ≡ filter (λ w. not (w.member == member)) wraps.now) }
{
    let mut kept = Vec::new(alloc);
    for wrap in wraps {
        if wrap.member != member {
            kept.push(*wrap)?;
        }
    }
    Ok(Wraps::new(kept))
}

// The bytes with the lowest bit of the first changed.
fn first_flipped(bytes: &[u8; 32]) -> [u8; 32]
    ensures { result ≡ first_flipped bytes.now }
{
    let mut flipped = *bytes;
    flipped[0] ^= 1;
    flipped
}
