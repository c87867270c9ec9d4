//! Entries that the script signs for rogues, and the lines that tell them.

ghost use Rattle.std.specs.Prelude.{◌≡◌, ◌+◌, ◌<◌, ◌≤◌, ◌^◌, ◌++◌, IfOk, OnOk, option_map};
ghost use Rattle.std.specs.Prelude.{string_bytes};
ghost use Rattle.std.specs.Option.{option_copied};
ghost use Rattle.sporc_play.specs.declared.playing.TheConstants.{MAX_SCRIPT};
ghost use Rattle.sporc_play.specs.Report.{signed_line};
ghost use Rattle.sporc_play.specs.Scene.{what_size};
ghost use Rattle.sporc_play.specs.Seats.{AreDrawn};
ghost use Rattle.sporc_play.specs.Signing.{HasSigned, forged_by, signing_line};
ghost use Rattle.sporc_play.specs.Stage.{ForRogue};

use crate::acting::push_not_open;
use crate::cast::Cast;
use crate::forging::forge;
use crate::seat::{PlayClient, Rogue};
use sporc_base::Memory;
use sporc_member::Device;
use sporc_report::{push_number, push_start};
use sporc_script::Forgery;
use std::alloc::Global;

/// Signs for a rogue by the history of a client, if it is open. The entry that is made gets the
/// number `next`.
pub fn sign(
    alloc: Global,
    rogue: &mut Rogue,
    cast: &Cast,
    client: Option<&PlayClient>,
    forgery: &Forgery,
    next: u64,
    out: &mut String,
) -> Result<Option<Vec<u8>>, Memory>
    requires limit { rogue.old.asked + 1 < 2 ^ 24 }
    requires leaves { AreDrawn rogue.old.signer.key rogue.old.signer.leaves.next
        rogue.old.signer.leaves }
    requires size_limit { what_size forgery.now.signed.what ≤ MAX_SCRIPT }
    ensures entry { IfOk result (λ made. ForRogue rogue.old.signer.key forgery.now.member cast.now
        (λ s. option_map (λ v. v.items) made
        ≡ forged_by s forgery.now rogue.old (option_copied client.entry))) }
    ensures line { OnOk result (ForRogue rogue.old.signer.key forgery.now.member cast.now
        (λ s. string_bytes out.new ≡ string_bytes out.old
        ++ signing_line forgery.now next rogue.old (option_copied client.entry))) }
    ensures rogue { IfOk result
        (λ made. HasSigned rogue.old (option_map (λ v. v.items) made) rogue.new) }
{
    rogue.asked += 1;
    let Some(client) = client else {
        push_not_open(out, forgery.from)?;
        return Ok(None);
    };
    let made = forge(alloc, &mut rogue.signer, cast, client, forgery, rogue.asked)?;
    push_signed(out, Device::first(forgery.member), next, made.is_some())?;
    Ok(made)
}

// The line that tells whether a rogue signed.
fn push_signed(out: &mut String, device: Device, next: u64, signed: bool) -> Result<(), Memory>
    ensures { OnOk result
        (string_bytes out.new ≡ string_bytes out.old ++ signed_line device next signed) }
{
    if signed {
        push_number(out, device, " sign entry ", next)
    } else {
        push_start(out, device, " sign exhausted\n")
    }
}
