//! Entries to be signed.

ghost use Rattle.std.specs.Prelude.{◌≡◌, ◌<◌, ◌^◌, length, true};
ghost use Rattle.sporc_entry.specs.Version.{fits_version};

use crate::fault::SampleFault;
use crate::member::Member;
use sporc_entry::{Bytes, Entry, Header, fits_version, signed_part, write_entry};
use std::alloc::Global;

/// An entry to be signed: whatever stands in its header is signed as it stands.
#[derive(Clone, Copy)]
pub struct Draft {
    pub header: Header,
    /// The leaf whose key signs: at first the one that the header names.
    pub signing_leaf: u32,
    /// Whether a bit of the signature is turned.
    pub turned: bool,
}

impl Draft {
    /// A draft with this header.
    pub fn new(header: Header) -> Draft {
        Draft {
            header,
            signing_leaf: header.leaf,
            turned: false,
        }
    }

    /// The bytes of the entry with this body, signed by a member.
    pub fn signed(
        &self,
        alloc: Global,
        signer: &Member,
        body: &[u8],
    ) -> Result<Vec<u8>, SampleFault> {
        if !fits_version(self.header.version, self.header.device) {
            return Err(SampleFault::NoVersion);
        }
        if body.len() > 0xffff_ffff {
            return Err(SampleFault::TooLong);
        }
        let entry = Entry {
            header: self.header,
            body: Bytes::copy_of(alloc, body)?,
            signature: Bytes::new(Vec::new(alloc)),
        };
        let signature = self.signature(alloc, signer, &entry)?;
        with_signature(alloc, entry, signature)
    }

    // The member's signature of an entry.
    fn signature(
        &self,
        alloc: Global,
        signer: &Member,
        entry: &Entry,
    ) -> Result<Vec<u8>, SampleFault>
        requires version { fits_version entry.now.header.version entry.now.header.device ≡ true }
        requires limit { length entry.now.body < 2 ^ 32 }
    {
        let message = signed_part(alloc, entry)?;
        let mut signature = signer.sign(alloc, self.signing_leaf, message.as_slice())?;
        if self.turned
            && let Some(byte) = signature.get_mut(8)
        {
            *byte ^= 1;
        }
        Ok(signature)
    }
}

// The bytes of an entry with this signature.
fn with_signature(
    alloc: Global,
    mut entry: Entry,
    signature: Vec<u8>,
) -> Result<Vec<u8>, SampleFault>
    requires version { fits_version entry.header.version entry.header.device ≡ true }
    requires limit { length entry.body < 2 ^ 32 }
{
    if signature.len() > 0xffff_ffff {
        return Err(SampleFault::TooLong);
    }
    entry.signature = Bytes::new(signature);
    Ok(write_entry(alloc, &entry)?)
}
