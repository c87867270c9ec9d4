//! The bytes are spelled out by hand, field by field, from the tables of the formats.

ghost use Rattle.std.specs.Prelude.{◌≡◌, true, length};
ghost use Rattle.sporc_entry.specs.Version.{fits_version};

use crate::checks::{check, check_at, check_bytes};
use sporc_base::is_same;
use sporc_entry::{
    Bytes, ChangeBody, Entry, EntryFault, Header, Wrap, read_change, read_entry, signed_part,
    write_change, write_entry,
};
use sporc_member::{Change, Role};
use std::alloc::Global;
use std::process::Abort;

// An edit of 19 bytes up to its signature of 2,348, in hexadecimal: version, document, author,
// number, base, base hash, epoch, leaf, kind, body and length of the signature.
const EDIT: &str = "01\
    d0d0d0d0d0d0d0d0d0d0d0d0d0d0d0d0\
    0102\
    03040506\
    0708090a\
    babababababababababababababababababababababababababababababababa\
    0b0c0d0e\
    0f101112\
    01\
    00000013bbbbbbbbbbbbbbbbbbbbbbbbbbbbbbbbbbbbbb\
    0000092c";

const HEADER: Header = Header {
    version: 1,
    document: [0xd0; 16],
    author: 0x0102,
    device: 0,
    number: 0x0304_0506,
    base: 0x0708_090a,
    base_hash: [0xba; 32],
    epoch: 0x0b0c_0d0e,
    leaf: 0x0f10_1112,
    kind: 1,
};

// The body of a change that adds member 3 as an editor: kind, member, role, key, commitment,
// previous key, and two sealed keys with their members.
const CHANGE: &str = "010003027777777777777777777777777777777777777777777777777777777777777777\
    777777777777777777777777777777777777777777777777c0c0c0c0c0c0c0c0c0c0c0c0c0c0c0c0c0c0c0c0\
    c0c0c0c0c0c0c0c0c0c0c0c0e0e0e0e0e0e0e0e0e0e0e0e0e0e0e0e0e0e0e0e0e0e0e0e0e0e0e0e0e0e0e0e0\
    00020001a1a1a1a1a1a1a1a1a1a1a1a1a1a1a1a1a1a1a1a1a1a1a1a1a1a1a1a1a1a1a1a10003a3a3a3a3a3a3\
    a3a3a3a3a3a3a3a3a3a3a3a3a3a3a3a3a3a3a3a3a3a3a3a3a3a3";

// So many bytes of one value.
fn repeated(rt: &impl Abort, alloc: Global, value: u8, count: usize) -> Vec<u8>
    ensures { length result.items ≡ count }
{
    vec![in alloc; value; count].expect(rt, "memory")
}

fn edit_bytes(rt: &impl Abort, alloc: Global) -> Vec<u8> {
    let signature = repeated(rt, alloc, 0x55, 2348);
    let mut bytes = hex::decode(alloc, EDIT).expect(rt, "hex digits");
    bytes
        .extend_from_slice(signature.as_slice())
        .expect(rt, "memory");
    bytes
}

// The change as an entry, with a signature of 8 bytes.
fn change_entry_bytes(rt: &impl Abort, alloc: Global) -> Vec<u8> {
    let change = hex::decode(alloc, CHANGE).expect(rt, "hex digits");
    let mut bytes = hex::decode(alloc, EDIT).expect(rt, "hex digits");
    bytes.truncate(67);
    bytes
        .extend_from_slice(&[2, 0, 0, 0, 194])
        .expect(rt, "memory");
    bytes
        .extend_from_slice(change.as_slice())
        .expect(rt, "memory");
    bytes
        .extend_from_slice(&[0, 0, 0, 8, 0x55, 0x55, 0x55, 0x55, 0x55, 0x55, 0x55, 0x55])
        .expect(rt, "memory");
    bytes
}

// Bytes with another value at one place.
fn altered(rt: &impl Abort, alloc: Global, bytes: &[u8], place: usize, value: u8) -> Vec<u8> {
    let mut all = Vec::from_slice(alloc, bytes).expect(rt, "memory");
    if let Some(byte) = all.get_mut(place) {
        *byte = value;
    }
    all
}

// The edit in version 2: the author's device stands behind the author.
fn device_bytes(rt: &impl Abort, alloc: Global, device: u8) -> Vec<u8> {
    let mut bytes = edit_bytes(rt, alloc);
    if bytes.len() > 19 {
        bytes.insert(19, device).ok().expect(rt, "memory");
    }
    if let Some(version) = bytes.first_mut() {
        *version = 2;
    }
    bytes
}

fn is_edit(entry: &Entry, header: &Header) -> bool {
    entry.header == *header
        && is_same(entry.body.as_slice(), &[0xbb; 19])
        && entry.signature.as_slice().len() == 2348
}

// Whether bytes are read as the edit that is spelled out, with this header.
fn reads_as_edit(rt: &impl Abort, alloc: Global, bytes: &[u8], header: &Header) -> bool {
    let entry = read_entry(alloc, bytes).expect(rt, "an entry");
    is_edit(&entry, header)
}

// The bytes of the entry that is read of these.
fn rewritten(rt: &impl Abort, alloc: Global, bytes: &[u8]) -> Vec<u8> {
    let entry = read_entry(alloc, bytes).expect(rt, "an entry");
    write_entry(alloc, &entry).expect(rt, "memory")
}

// What is signed is a byte 3 and the entry up to the end of its body.
fn signed_bytes(rt: &impl Abort, alloc: Global, entry: &[u8]) -> Vec<u8> {
    let mut signed = Vec::from_slice(alloc, &[3u8]).expect(rt, "memory");
    signed.extend_from_slice(entry).expect(rt, "memory");
    signed.truncate(92);
    signed
}

fn signed_of(rt: &impl Abort, alloc: Global, bytes: &[u8]) -> Vec<u8> {
    let entry = read_entry(alloc, bytes).expect(rt, "an entry");
    signed_part(alloc, &entry).expect(rt, "memory")
}

fn is_written_again(rt: &impl Abort, alloc: Global, bytes: &[u8]) {
    let written = rewritten(rt, alloc, bytes);
    check_bytes(rt, "written again", written.as_slice(), bytes);
}

fn is_signed(rt: &impl Abort, alloc: Global, bytes: &[u8]) {
    let part = signed_of(rt, alloc, bytes);
    let signed = signed_bytes(rt, alloc, bytes);
    check_bytes(rt, "signed", part.as_slice(), signed.as_slice());
}

// An edit reads and is written again, and is signed without its signature.
fn edit_is_read(rt: &impl Abort, alloc: Global, bytes: &[u8]) {
    check(rt, "length", bytes.len() == 2443);
    check(rt, "edit", reads_as_edit(rt, alloc, bytes, &HEADER));
    is_written_again(rt, alloc, bytes);
    is_signed(rt, alloc, bytes);
}

fn is_malformed(rt: &impl Abort, alloc: Global, bytes: &[u8], at: usize) {
    let found = read_entry(alloc, bytes).err();
    check_at(
        rt,
        "malformed",
        at as u64,
        found == Some(EntryFault::Malformed(at)),
    );
}

// The place of a byte, its new value, and where the entry is malformed then.
const EDIT_FAULTS: [(usize, u8, usize); 8] = [
    (0, 3, 0),
    (67, 3, 67),
    (67, 0, 67),
    (67, 2, 72),
    (69, 0x11, 68),
    (70, 0x0a, 72),
    (71, 18, 90),
    (93, 0x25, 91),
];

// Bytes with another value at one place, as a row has it.
fn altered_is_malformed(rt: &impl Abort, alloc: Global, bytes: &[u8], row: &(usize, u8, usize)) {
    let (place, value, at) = *row;
    let other = altered(rt, alloc, bytes, place, value);
    is_malformed(rt, alloc, other.as_slice(), at);
}

// Bytes are malformed with another value at one place, as each row has it.
fn each_altered_is_malformed(
    rt: &impl Abort,
    alloc: Global,
    bytes: &[u8],
    rows: &[(usize, u8, usize)],
) {
    for row in rows {
        altered_is_malformed(rt, alloc, bytes, row);
    }
}

// An edit with a byte more, with one less, and without any.
fn other_lengths_are_malformed(rt: &impl Abort, alloc: Global, edit: &mut Vec<u8>) {
    edit.push(0).expect(rt, "memory");
    is_malformed(rt, alloc, edit.as_slice(), 2443);
    edit.truncate(2442);
    is_malformed(rt, alloc, edit.as_slice(), 95);
    is_malformed(rt, alloc, &[], 0);
}

// An edit whose body and signature have so many bytes.
fn edit_of(rt: &impl Abort, alloc: Global, body: u32, signature: u32) -> Entry
    ensures version { fits_version result.header.version result.header.device ≡ true }
    ensures body { length result.body ≡ body }
    ensures signature { length result.signature ≡ signature }
{
    let body = Bytes::new(repeated(rt, alloc, 0x61, body as usize));
    let signature = Bytes::new(repeated(rt, alloc, 0x55, signature as usize));
    Entry {
        header: HEADER,
        body,
        signature,
    }
}

fn is_same_entry(one: &Entry, other: &Entry) -> bool {
    one.header == other.header
        && is_same(one.body.as_slice(), other.body.as_slice())
        && is_same(one.signature.as_slice(), other.signature.as_slice())
}

// The bytes of an edit whose body and signature have so many.
fn long_bytes(rt: &impl Abort, alloc: Global, body: u32, signature: u32) -> Vec<u8> {
    let edit = edit_of(rt, alloc, body, signature);
    write_entry(alloc, &edit).expect(rt, "memory")
}

// Whether bytes are read as this entry.
fn reads_as(rt: &impl Abort, alloc: Global, bytes: &[u8], wanted: &Entry) -> bool {
    let entry = read_entry(alloc, bytes).expect(rt, "an entry");
    is_same_entry(&entry, wanted)
}

// Whether bytes are read as the largest edit.
fn reads_as_largest(rt: &impl Abort, alloc: Global, bytes: &[u8]) -> bool {
    let largest = edit_of(rt, alloc, 1_048_576, 9_324);
    reads_as(rt, alloc, bytes, &largest)
}

fn largest_is_read_again(rt: &impl Abort, alloc: Global) {
    let bytes = long_bytes(rt, alloc, 1_048_576, 9_324);
    check(rt, "length", bytes.len() == 1_057_976);
    check(
        rt,
        "largest edit",
        reads_as_largest(rt, alloc, bytes.as_slice()),
    );
}

fn is_too_long(rt: &impl Abort, alloc: Global, body: u32, signature: u32, at: usize) {
    let bytes = long_bytes(rt, alloc, body, signature);
    is_malformed(rt, alloc, bytes.as_slice(), at);
}

// The largest edit reads and is written again, and one above the limits is refused.
fn edits_are_limited(rt: &impl Abort, alloc: Global) {
    largest_is_read_again(rt, alloc);
    is_too_long(rt, alloc, 1_048_577, 0, 68);
    is_too_long(rt, alloc, 3, 9_325, 75);
}

#[test]
fn an_edit_is_read_unless_it_has_a_fault(rt: HostRuntime) {
    let mut bytes = edit_bytes(&rt, rt.alloc());
    edit_is_read(&rt, rt.alloc(), bytes.as_slice());
    each_altered_is_malformed(&rt, rt.alloc(), bytes.as_slice(), &EDIT_FAULTS);
    other_lengths_are_malformed(&rt, rt.alloc(), &mut bytes);
    edits_are_limited(&rt, rt.alloc());
}

// The header of the edit in version 2, by this device.
fn header_by(device: u8) -> Header {
    let mut header = HEADER;
    header.version = 2;
    header.device = device;
    header
}

// The place of a byte, its new value, and where the entry of version 2 is malformed then.
const DEVICE_FAULTS: [(usize, u8, usize); 7] = [
    (0, 0, 0),
    (68, 3, 68),
    (68, 0, 68),
    (68, 2, 73),
    (70, 0x11, 69),
    (71, 0x0a, 73),
    (94, 0x25, 92),
];

fn is_read_by_device(rt: &impl Abort, alloc: Global, device: u8) {
    let bytes = device_bytes(rt, alloc, device);
    check(rt, "length", bytes.len() == 2444);
    let header = header_by(device);
    let reads = reads_as_edit(rt, alloc, bytes.as_slice(), &header);
    check(rt, "edit", reads);
    is_written_again(rt, alloc, bytes.as_slice());
    each_altered_is_malformed(rt, alloc, bytes.as_slice(), &DEVICE_FAULTS);
}

// Version 2 with device 0 is another spelling than version 1.
#[test]
fn an_edit_names_its_device(rt: HostRuntime) {
    is_read_by_device(&rt, rt.alloc(), 0);
    is_read_by_device(&rt, rt.alloc(), 255);
}

// The bytes of the change that is read of these.
fn rewritten_change(rt: &impl Abort, alloc: Global, bytes: &[u8]) -> Vec<u8> {
    let body = read_change(alloc, 1, bytes).expect(rt, "a change");
    write_change(alloc, &body).expect(rt, "memory")
}

fn body_is_written_again(rt: &impl Abort, alloc: Global, body: &[u8]) {
    let written = rewritten_change(rt, alloc, body);
    check_bytes(rt, "body written again", written.as_slice(), body);
}

// The body of the change that is read of these bytes is written again.
fn change_is_written_again(rt: &impl Abort, alloc: Global, bytes: &[u8]) {
    let entry = read_entry(alloc, bytes).expect(rt, "an entry");
    check(rt, "kind", entry.header.kind == 2);
    body_is_written_again(rt, alloc, entry.body.as_slice());
}

// Whether it adds member 3 as an editor.
fn is_added(change: &Change) -> bool {
    match change {
        Change::Add { member, role, key } => {
            *member == 3 && *role == Role::Editor && is_same(key, &[0x77; 56])
        }
        _ => false,
    }
}

fn is_sealed(wrap: &Wrap, member: u16, byte: u8) -> bool {
    wrap.member == member && is_same(&wrap.sealed, &[byte; 32])
}

fn are_sealed(wraps: &[Wrap]) -> bool {
    match wraps {
        [one, other] => is_sealed(one, 1, 0xa1) && is_sealed(other, 3, 0xa3),
        _ => false,
    }
}

fn is_spelled(body: &ChangeBody) -> bool {
    is_added(&body.change)
        && is_same(&body.commitment, &[0xc0; 32])
        && is_same(&body.previous, &[0xe0; 32])
        && are_sealed(body.wraps.as_slice())
}

// Whether bytes are read as the change that is spelled out.
fn reads_as_spelled(rt: &impl Abort, alloc: Global, bytes: &[u8]) -> bool {
    let body = read_change(alloc, 1, bytes).expect(rt, "a change");
    is_spelled(&body)
}

fn body_is_read(rt: &impl Abort, alloc: Global) {
    let body = hex::decode(alloc, CHANGE).expect(rt, "hex digits");
    check(rt, "change", reads_as_spelled(rt, alloc, body.as_slice()));
}

#[test]
fn a_change_is_read(rt: HostRuntime) {
    let bytes = change_entry_bytes(&rt, rt.alloc());
    is_written_again(&rt, rt.alloc(), bytes.as_slice());
    change_is_written_again(&rt, rt.alloc(), bytes.as_slice());
    body_is_read(&rt, rt.alloc());
}
