//! The file of a device's key.

ghost use Rattle.std.specs.Prelude.{◌≡◌, ◌++◌, ◌==◌, [], ◌∷◌, find, IfErr, IfOk, OnOk, Err, Ok};
ghost use Rattle.lms_ots.specs.OtsType.{ots_code_of};
ghost use Rattle.lms_ots.specs.declared.ots_type.OtsType.TheVariants.{W4, W8};
ghost use Rattle.lms_tree.specs.LmsType.{lms_code_of};
ghost use Rattle.lms_tree.specs.declared.lms_type.LmsType.TheVariants.{H5, H10, H15};
ghost use Rattle.sporc_bytes.specs.Fields.{Reads};
ghost use Rattle.sporc_keys.specs.KeyFile.{IsKeyFile, device_number_at, device_number_bytes};
ghost use Rattle.sporc_keys.specs.KeyFile.{format_of, key_file_at, key_file_bytes, key_file_of};
ghost use Rattle.sporc_keys.specs.KeyFile.{lms_type_at, ots_type_at, private_in};

use crate::fault::Malformed;
use crate::format::read_format;
use lms_ots::OtsType;
use lms_tree::{LmsType, Tree};
use sporc_base::Memory;
use sporc_bytes::{Cursor, Out, Short};
use sporc_member::{Device, FIRST_DEVICE};
use std::alloc::Global;
use std::thread::Threads;

// How many workers build a tree.
const BUILDERS: u32 = 4;

/// A device's key: the two types, the identifier `I` and the seed of its tree (RFC 8554, section
/// 5.2 and Appendix A). In a file the tree has height 5, 10 or 15, and the one-time keys W4 or W8.
#[derive(Clone, Copy)]
pub struct KeyFile {
    pub device: Device,
    pub lms: LmsType,
    pub ots: OtsType,
    pub id: [u8; 16],
    pub seed: [u8; 32],
}

impl KeyFile {
    /// The tree of the key, which four workers build.
    pub fn tree<R: Threads + Sync>(&self, rt: &R, alloc: Global) -> Result<Tree, Memory>
        ensures value { IfOk result (λ tree. tree ≡ private_in self.now) }
    {
        Tree::build_by_workers(
            rt, alloc, &self.seed, &self.id, self.lms, self.ots, BUILDERS,
        )
    }
}

// The four bytes that name the format, by the device's number.
fn format_of(number: u8) -> &'static [u8; 4]
    ensures { result.now ≡ format_of number }
{
    match number {
        FIRST_DEVICE => b"SPK1",
        _ => b"SPK2",
    }
}

// The type of a tree that may have a file, by its code.
fn lms_type_with(code: u32) -> Option<LmsType>
    ensures { result ≡ find (λ t. lms_code_of t == code) (H5 ∷ H10 ∷ H15 ∷ []) }
{
    match code {
        5 => Some(LmsType::H5),
        6 => Some(LmsType::H10),
        7 => Some(LmsType::H15),
        _ => None,
    }
}

// The type of one-time keys that may have a file, by its code.
fn ots_type_with(code: u32) -> Option<OtsType>
    ensures { result ≡ find (λ t. ots_code_of t == code) (W4 ∷ W8 ∷ []) }
{
    match code {
        3 => Some(OtsType::W4),
        4 => Some(OtsType::W8),
        _ => None,
    }
}

// The next four bytes as the type of a tree.
#[tactic(auto, unfolding(crate::specs::KeyFile::lms_type_at))]
fn read_lms_type(cursor: &mut Cursor<'_>) -> Result<LmsType, Short>
    ensures { Reads (λ lms. (lms, cursor.new)) result (lms_type_at cursor.old) }
{
    let at = cursor.at();
    let code = cursor.u32()?;
    match lms_type_with(code) {
        Some(lms) => Ok(lms),
        None => Err(Short(at)),
    }
}

// The next four bytes as the type of one-time keys.
#[tactic(auto, unfolding(crate::specs::KeyFile::ots_type_at))]
fn read_ots_type(cursor: &mut Cursor<'_>) -> Result<OtsType, Short>
    ensures { Reads (λ ots. (ots, cursor.new)) result (ots_type_at cursor.old) }
{
    let at = cursor.at();
    let code = cursor.u32()?;
    match ots_type_with(code) {
        Some(ots) => Ok(ots),
        None => Err(Short(at)),
    }
}

// The device's number that stands next, which must be this one. That of a first device stands in no
// field.
#[tactic(auto, unfolding(crate::specs::KeyFile::device_number_at))]
fn read_device_number(cursor: &mut Cursor<'_>, number: u8) -> Result<u8, Short>
    ensures { Reads (λ found. (found, cursor.new)) result (device_number_at number cursor.old) }
{
    if number == FIRST_DEVICE {
        return Ok(number);
    }
    cursor.u8_within(number, number)
}

// The fields of the key file of a device that stand next.
#[tactic(auto, unfolding(crate::specs::KeyFile::key_file_at))]
fn read_fields(cursor: &mut Cursor<'_>, device: Device) -> Result<KeyFile, Short>
    ensures { Reads (λ file. (file, cursor.new)) result (key_file_at device cursor.old) }
{
    read_format(cursor, format_of(device.number))?;
    let member = cursor.u16_within(u32::from(device.member), u32::from(device.member))?;
    let number = read_device_number(cursor, device.number)?;
    let lms = read_lms_type(cursor)?;
    let ots = read_ots_type(cursor)?;
    let id = cursor.array()?;
    let seed = cursor.array()?;
    Ok(KeyFile {
        device: Device { member, number },
        lms,
        ots,
        id,
        seed,
    })
}

// The key file of a device that these bytes spell.
fn read_all(bytes: &[u8], device: Device) -> Result<KeyFile, Short>
    ensures { Reads (λ file. file) result (key_file_of device bytes.now) }
{
    let mut cursor = Cursor::new(bytes);
    let file = read_fields(&mut cursor, device)?;
    cursor.ended()?;
    Ok(file)
}

/// The key file of this device that these bytes spell. Malformed are that of another member, at the
/// member's number, which stands at 4, that of another further device of the member, at the
/// device's number, which stands at 6, and that of a further device in place of the first, or the
/// other way round, at 0.
pub fn key_of_device(bytes: &[u8], device: Device) -> Result<KeyFile, Malformed>
    // What is read is spelled so.
    ensures found { IfOk result
        (λ k. IsKeyFile k × (k.device ≡ device) × (bytes.now ≡ key_file_bytes k)) }
    ensures ok { IfOk result (λ k. key_file_of device bytes.now ≡ Ok k) }
    ensures err { IfErr result (λ malformed. key_file_of device bytes.now ≡ Err malformed.0) }
{
    match read_all(bytes, device) {
        Ok(file) => Ok(file),
        Err(short) => Err(Malformed(short.0)),
    }
}

// Appends the number of a further device.
fn put_device_number(out: &mut Out, number: u8) -> Result<(), Memory>
    ensures { OnOk result (out.new ≡ out.old ++ device_number_bytes number) }
{
    if number == FIRST_DEVICE {
        return Ok(());
    }
    out.put_u8(number)
}

/// The one spelling of a key file: 62 bytes of a first device, 63 of a further one.
#[tactic(auto, unfolding(crate::specs::KeyFile::key_file_bytes))]
pub fn write_key_file(alloc: Global, file: &KeyFile) -> Result<Vec<u8>, Memory>
    requires file { IsKeyFile file.now }
    ensures value { IfOk result (λ bytes. bytes.items ≡ key_file_bytes file.now) }
{
    let mut out = Out::new(alloc);
    out.put_bytes(format_of(file.device.number))?;
    out.put_u16(file.device.member)?;
    put_device_number(&mut out, file.device.number)?;
    out.put_u32(file.lms.code())?;
    out.put_u32(file.ots.code())?;
    out.put_bytes(&file.id)?;
    out.put_bytes(&file.seed)?;
    Ok(out.into_bytes())
}
