//! The texts of a client, and the key of the last epoch.

ghost use Rattle.std.specs.Prelude.{◌≡◌, ◌<◌, ◌≤◌, ◌↔◌, length, IsNone, IfSome, IfOk, OnOk};
ghost use Rattle.std.specs.Prelude.{is_none, option_copied};
ghost use Rattle.std.specs.String.{string_bytes};
ghost use Rattle.std.specs.Str.{encode_utf8_all};
ghost use Rattle.sporc_head.specs.History.{epoch_of};
ghost use Rattle.sporc_line.specs.declared.limits.TheConstants.{MAX_COMMITTED_LEN};
ghost use Rattle.sporc_line.specs.Document.{text_of};
ghost use Rattle.sporc_line.specs.Keys.{epoch_key};
ghost use Rattle.sporc_client.specs.declared.limits.TheConstants.{MAX_SHOWN_LEN};
ghost use Rattle.sporc_client.specs.Answers.{is_out};
ghost use Rattle.sporc_client.specs.ClientModel.{state_of};
ghost use Rattle.sporc_client.specs.PlainClient.{committed_of, shown_after, shown_of};

use super::Client;
use crate::rebasing::apply_all;
use sporc_base::Memory;
use sporc_line::Line;
use sporc_outside::LeafDisk;

impl<D: LeafDisk> Client<D> {
    /// The committed text as UTF-8.
    pub fn committed(&self) -> Result<String, Memory>
        ensures value { IfOk result
            (λ t. string_bytes t ≡ encode_utf8_all (committed_of (state_of self.now))) }
        ensures within { length (committed_of (state_of self.now)) ≤ MAX_COMMITTED_LEN }
    {
        self.line.text()
    }

    /// The committed text with the pending edits, as UTF-8.
    pub fn shown(&self) -> Result<String, Memory>
        ensures value { IfOk result
            (λ t. string_bytes t ≡ encode_utf8_all (shown_of (state_of self.now))) }
        ensures within { OnOk result (length (shown_of (state_of self.now)) ≤ MAX_SHOWN_LEN) }
    {
        let pending = self.own.pending();
        if pending.is_empty() {
            return self.line.text();
        }
        let mut doc = self.line.doc().copy()?;
        apply_all(&mut doc, pending)?;
        let shown = doc.text()?;
        Ok(shown)
    }

    /// How many characters the committed text has.
    pub fn committed_len(&self) -> u64
        ensures value { result ≡ length (committed_of (state_of self.now)) }
        ensures within { result ≤ MAX_COMMITTED_LEN }
    {
        committed_len(&self.line)
    }

    /// How many characters the text had that was shown after `seen` events. None if there are fewer
    /// events.
    pub fn shown_len_at(&self, seen: u64) -> Option<u64>
        ensures some { IfSome result (λ len. len ≡ length (shown_after seen (state_of self.now))) }
        ensures none { IsNone result ↔ (length self.now.log < seen) }
    {
        if seen > self.own.journal().len() as u64 {
            return None;
        }
        Some(self.own.shown_len_at(seen as u32))
    }

    /// The key of the last epoch. None if a change removed the member, or dropped the device.
    pub fn key(&self) -> Option<&[u8; 32]>
        ensures value { option_copied result
            ≡ epoch_key self.now.opening.genesis self.now.opening.kit (state_of self.now).entries
            (epoch_of (state_of self.now).entries) }
        ensures none { is_none result ≡ is_out (state_of self.now) }
    {
        self.line.key()
    }
}

// How many characters the committed text has.
fn committed_len(line: &Line) -> u64
    ensures value { result ≡ length (text_of line.now.genesis line.now.kit line.now.entries) }
    ensures within { result ≤ MAX_COMMITTED_LEN }
{
    line.text_len_at(line.len())
}
