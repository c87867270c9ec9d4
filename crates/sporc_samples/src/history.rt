//! Histories that grow by signed entries.

ghost use Rattle.sporc_entry.specs.Genesis.{IsGenesis};

use crate::bodies::{change_body, edit_body, insertion};
use crate::cast::{Cast, DOCUMENT};
use crate::draft::Draft;
use crate::fault::SampleFault;
use crate::member::Member;
use sporc_entry::{CHANGE, EDIT, Genesis, Header, version_of, write_genesis};
use sporc_hash::{Digest32, genesis_hash, next_hash};
use sporc_member::{Change, Device};
use std::alloc::Global;

/// The entries of a history of the sample document, with what the header of the next one says.
#[derive(Drop)]
pub struct History {
    entries: Vec<Vec<u8>>,
    signers: Vec<Device>,
    hash: Digest32,
    epoch: u32,
    upgraded: bool,
}

impl History {
    /// The empty history of a document.
    pub fn new(alloc: Global, genesis: &Genesis) -> Result<History, SampleFault>
        requires { IsGenesis genesis.now }
    {
        let bytes = write_genesis(alloc, genesis)?;
        Ok(History {
            entries: Vec::new(alloc),
            signers: Vec::new(alloc),
            hash: genesis_hash(bytes.as_slice()),
            epoch: 0,
            upgraded: false,
        })
    }

    /// The bytes of its entries, oldest first.
    pub fn entries(&self) -> &[Vec<u8>] {
        self.entries.as_slice()
    }

    /// The value of the chain after its entries.
    pub fn hash(&self) -> Digest32 {
        self.hash
    }

    /// How many changes it has.
    pub fn epoch(&self) -> u32 {
        self.epoch
    }

    /// The header of the next entry of this kind by an author's first device: its base is the whole
    /// history.
    pub fn header(&self, author: u16, kind: u8) -> Header {
        self.header_of(Device::first(author), kind)
    }

    /// The header of the next entry of this kind by any device.
    pub fn header_of(&self, device: Device, kind: u8) -> Header {
        let before = self.signers.iter().filter(|d| d.is(device)).count();
        let before = u32::try_from(before).unwrap_or(u32::MAX);
        Header {
            version: version_of(self.upgraded),
            document: DOCUMENT,
            author: device.member,
            device: device.number,
            number: before.wrapping_add(1),
            base: u32::try_from(self.entries.len()).unwrap_or(u32::MAX),
            base_hash: self.hash,
            epoch: self.epoch,
            leaf: before % 32,
            kind,
        }
    }

    /// Appends an edit by an author's first device, by the bytes of its delta.
    pub fn edit(
        &mut self,
        alloc: Global,
        cast: &Cast,
        author: u16,
        delta: &[u8],
    ) -> Result<(), SampleFault> {
        self.edit_by(alloc, cast.member(author)?, delta)
    }

    /// Appends an edit by an author's first device, which inserts a text behind so many characters.
    pub fn insert(
        &mut self,
        alloc: Global,
        cast: &Cast,
        author: u16,
        keep: u64,
        text: &[u8],
    ) -> Result<(), SampleFault> {
        let delta = insertion(alloc, keep, text)?;
        self.edit(alloc, cast, author, delta.as_slice())
    }

    /// Appends an edit by the device that these keys are of.
    pub fn edit_by(
        &mut self,
        alloc: Global,
        signer: &Member,
        delta: &[u8],
    ) -> Result<(), SampleFault> {
        let device = signer.device();
        let header = self.header_of(device, EDIT);
        let body = edit_body(alloc, device, header.leaf, header.epoch, delta)?;
        self.append_signed(alloc, signer, header, body.as_slice())
    }

    /// Appends a change by an author's first device, with the next key sealed for these members.
    pub fn change(
        &mut self,
        alloc: Global,
        cast: &Cast,
        author: u16,
        change: Change,
        members: &[u16],
    ) -> Result<(), SampleFault> {
        self.change_by(alloc, cast.member(author)?, change, members)
    }

    /// Appends a change by the device that these keys are of.
    pub fn change_by(
        &mut self,
        alloc: Global,
        signer: &Member,
        change: Change,
        members: &[u16],
    ) -> Result<(), SampleFault> {
        let device = signer.device();
        let header = self.header_of(device, CHANGE);
        let body = change_body(alloc, change, device, header.leaf, header.epoch, members)?;
        self.append_signed(alloc, signer, header, body.as_slice())?;
        self.epoch = self.epoch.wrapping_add(1);
        self.upgraded = self.upgraded || matches!(change, Change::Upgrade);
        Ok(())
    }

    // Appends the entry with this header and body that these keys sign.
    fn append_signed(
        &mut self,
        alloc: Global,
        signer: &Member,
        header: Header,
        body: &[u8],
    ) -> Result<(), SampleFault> {
        let bytes = Draft::new(header).signed(alloc, signer, body)?;
        self.append(signer.device(), bytes)
    }

    fn append(&mut self, device: Device, bytes: Vec<u8>) -> Result<(), SampleFault> {
        self.hash = next_hash(&self.hash, bytes.as_slice());
        self.entries.push(bytes)?;
        self.signers.push(device)?;
        Ok(())
    }
}
