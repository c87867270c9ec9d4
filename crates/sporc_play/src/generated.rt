//! The generated run: a play of three members whose commands are computed from what they see.

ghost use Rattle.std.specs.Prelude.{◌≡◌, ◌+◌, ◌^◌, ◌<◌, ◌≤◌, ◌↔◌, [], ◌∷◌, ◌++◌, IfErr, IfOk};
ghost use Rattle.std.specs.Prelude.{IsTrue, OnOk, Some, codes, flat_map, length, map, string_bytes};
ghost use Rattle.std.specs.Fmt.{decimal};
ghost use Rattle.sporc_outside.specs.Uses.{use_of};
ghost use Rattle.sporc_client.specs.ClientModel.{state_of};
ghost use Rattle.sporc_client.specs.PlainClient.{shown_of};
ghost use Rattle.sporc_member.specs.Device.{first_device};
ghost use Rattle.sporc_play.specs.Batches.{AreOpen, HasRoom, IsAsked, Performs};
ghost use Rattle.sporc_base.specs.Numbers.{up_to};
ghost use Rattle.sporc_play.specs.Generated.{AreSame, Summarizes, TellsAgreement, batch, edits};
ghost use Rattle.sporc_play.specs.Generated.{founds};
ghost use Rattle.sporc_play.specs.Generated.{generated_cast, generated_scene, gives, inserts};
ghost use Rattle.sporc_play.specs.Generated.{removes, seen_len, submits, summary_line};
ghost use Rattle.sporc_play.specs.Playing.{GeneratedFault, PlaysGenerated};
ghost use Rattle.sporc_play.specs.Scene.{Scene};
ghost use Rattle.sporc_play.specs.Stage.{Becomes, CanPerform, StandsFor};

use crate::fault::PlayFault;
use crate::seat::PlayClient;
use crate::state::PlayState;
use sporc_base::{Memory, is_same as is_same_bytes};
use sporc_delta::Text;
use sporc_hash::Digest32;
use sporc_member::{Device, Role};
use sporc_outside::{Sink, write_all};
use sporc_report::{last_hash, push_digits};
use sporc_script::{
    Command, Edit, Give, Height, Insertion, MAX_GENERATED, MemberRole, PlayLine, Removal, TextEdit,
    Tree, Width,
};
use std::alloc::Global;
use std::fmt::Write;

// The members: 1 an admin, 2 and 3 editors.
const MEMBERS: u32 = 3;

/// Performs the generated run of so many edits, and writes its summary.
pub fn play_generated<O: Sink>(alloc: Global, edits: u32, out: &mut O) -> Result<(), PlayFault>
    requires limit { edits ≤ MAX_GENERATED }
    ensures ok { OnOk result (PlaysGenerated edits (use_of O.told out.old out.new)) }
    ensures err { IfErr result (GeneratedFault edits (use_of O.told out.old out.new)) }
    ensures kept { (O.told out.old).faults ≤ (O.told out.new).faults }
{
    let state = generated_run(alloc, edits)?;
    let line = summary(alloc, &state);
    drop(state);
    let line = line?;
    write_all(out, line.as_bytes())?;
    Ok(())
}

// The state after the generated run of so many edits.
fn generated_run(alloc: Global, edits: u32) -> Result<PlayState, Memory>
    requires { edits ≤ MAX_GENERATED }
    ensures { IfOk result (λ state. StandsFor generated_cast (generated_scene edits) state) }
{
    let lines = declarations(alloc)?;
    let mut state = PlayState::new(alloc, lines.as_slice())?;
    let whole = edits / MEMBERS;
    for k in 0..whole {
        if let Err(memory) = perform_batch(alloc, &mut state, MEMBERS * k, MEMBERS) {
            drop(state);
            return Err(memory);
        }
    }
    match perform_batch(alloc, &mut state, MEMBERS * whole, edits % MEMBERS) {
        Ok(()) => Ok(state),
        Err(memory) => {
            drop(state);
            Err(memory)
        }
    }
}

// What the generated run declares.
fn declarations(alloc: Global) -> Result<Vec<PlayLine>, Memory>
    ensures { IfOk result (λ lines. lines.items ≡ generated_cast) }
{
    let mut lines = Vec::new(alloc);
    let tree = Tree {
        height: Height::Ten,
        width: Width::Four,
    };
    lines.push(PlayLine {
        number: 1,
        command: Command::Tree(tree),
    })?;
    lines.push(founder(1, Role::Admin))?;
    lines.push(founder(2, Role::Editor))?;
    lines.push(founder(3, Role::Editor))?;
    Ok(lines)
}

// The line of a founder.
fn founder(member: u16, role: Role) -> PlayLine
    requires { member ≤ MEMBERS }
    ensures { result ≡ founds member role }
{
    PlayLine {
        number: u32::from(member) + 1,
        command: Command::Member(MemberRole { member, role }),
    }
}

// A batch behind so many edits: all its authors edit, then submit, and then all members accept its
// entries.
fn perform_batch(
    alloc: Global,
    state: &mut PlayState,
    done: u32,
    authors: u32,
) -> Result<(), Memory>
    requires authors_limit { authors ≤ MEMBERS }
    requires done_limit { done ≤ MAX_GENERATED }
    requires room { HasRoom 20 state.old }
    ensures { OnOk result (Performs state.old (batch done authors) state.new) }
{
    edit_all(alloc, state, done / MEMBERS + 1, authors)?;
    submit_all(alloc, state, authors)?;
    accept_all(alloc, state, done, authors)
}

// All authors edit.
fn edit_all(alloc: Global, state: &mut PlayState, batch: u32, authors: u32) -> Result<(), Memory>
    requires authors_limit { authors ≤ MEMBERS }
    requires batch_limit { batch ≤ MAX_GENERATED }
    requires room { HasRoom 4 state.old }
    ensures { OnOk result (Performs state.old (map (edits batch) (up_to authors)) state.new) }
{
    for a in 0..authors {
        let edit = edit_of(alloc, state, batch, a as u16 + 1)?;
        perform(alloc, state, edit)?;
    }
    Ok(())
}

// All authors submit.
fn submit_all(alloc: Global, state: &mut PlayState, authors: u32) -> Result<(), Memory>
    requires limit { authors ≤ MEMBERS }
    requires room { HasRoom 4 state.old }
    ensures { OnOk result (Performs state.old (map submits (up_to authors)) state.new) }
{
    for a in 0..authors {
        perform(alloc, state, Command::Submit(Device::first(a as u16 + 1)))?;
    }
    Ok(())
}

// All members are given the entries behind so many.
fn accept_all(alloc: Global, state: &mut PlayState, done: u32, authors: u32) -> Result<(), Memory>
    requires authors_limit { authors ≤ MEMBERS }
    requires done_limit { done ≤ MAX_GENERATED }
    requires room { HasRoom 13 state.old }
    ensures { OnOk result (Performs state.old
        (flat_map (λ a. map (gives (done + a)) (up_to 3)) (up_to authors)) state.new) }
{
    for a in 0..authors {
        give_all(alloc, state, done + a + 1)?;
    }
    Ok(())
}

// All members are given an entry, as the one at the position of its number.
fn give_all(alloc: Global, state: &mut PlayState, number: u32) -> Result<(), Memory>
    requires { HasRoom 4 state.old }
    ensures { OnOk result (Performs state.old (map (gives number) (up_to 3)) state.new) }
{
    for m in 0..MEMBERS {
        let give = Give {
            device: Device::first(m as u16 + 1),
            position: number,
            entry: u64::from(number),
        };
        perform(alloc, state, Command::Give(give))?;
    }
    Ok(())
}

// Performs a command. Its line is not written.
fn perform(alloc: Global, state: &mut PlayState, command: Command) -> Result<(), Memory>
    requires { CanPerform state.old command }
    ensures { OnOk result (Becomes state.old command state.new) }
{
    let mut line = String::new(alloc);
    state.perform(alloc, &command, &mut line)
}

// The edit of an author in a batch: a removal in each fifth batch, else an insertion of one letter.
fn edit_of(alloc: Global, state: &PlayState, batch: u32, author: u16) -> Result<Command, Memory>
    requires author { IsAsked author }
    requires limit { batch ≤ MAX_GENERATED }
    requires room { HasRoom 1 state.now }
    ensures { IfOk result (λ command. (scene : Scene) → StandsFor generated_cast scene state.now
        → command ≡ edits batch author scene) }
{
    let change = if batch % 5 == 0 {
        removal(author)
    } else {
        insertion(
            alloc,
            u64::from(batch),
            u64::from(author),
            shown_len(state, author),
        )?
    };
    Ok(Command::Edit(Edit {
        device: Device::first(author),
        seen: None,
        change,
    }))
}

// The removal of the character at an author's place.
fn removal(author: u16) -> TextEdit
    requires { 0 < author }
    ensures { result ≡ removes author }
{
    TextEdit::Remove(Removal {
        at: u64::from(author) - 1,
        count: 1,
    })
}

// The insertion of a letter into a text of `len` characters.
fn insertion(alloc: Global, batch: u64, author: u64, len: u64) -> Result<TextEdit, Memory>
    requires batch_limit { batch ≤ MAX_GENERATED }
    requires author_limit { author ≤ MEMBERS }
    requires len_limit { len < 2 ^ 63 }
    ensures { IfOk result (λ edit. edit ≡ inserts batch author len) }
{
    let text = letter(alloc, ((3 * batch + author) % 26) as u8)?;
    Ok(TextEdit::Insert(Insertion {
        at: (batch * author) % (len + 1),
        text,
    }))
}

// How many characters a member sees.
fn shown_len(state: &PlayState, member: u16) -> u64
    requires member { IsAsked member }
    requires room { HasRoom 1 state.now }
    ensures value { (scene : Scene) → StandsFor generated_cast scene state.now
        → result ≡ seen_len (scene.world.clients (first_device member)) }
    ensures within { result < 2 ^ 63 }
{
    match state.client(Device::first(member)) {
        Some(client) => len_of_shown(client),
        None => 0,
    }
}

// How many characters a client shows.
fn len_of_shown(client: &PlayClient) -> u64
    ensures value { result ≡ length (shown_of (state_of client.now)) }
    ensures within { result < 2 ^ 63 }
{
    match client.shown_len_at(client.journal().len() as u64) {
        Some(len) => len,
        None => unreachable!(),
    }
}

// The letter at a place of the alphabet, from 0.
fn letter(alloc: Global, place: u8) -> Result<Text, Memory>
    requires { place < 26 }
    ensures { IfOk result (λ text. text ≡ (97 + place) ∷ []) }
{
    let mut text = String::new(alloc);
    text.push(char::from(b'a' + place))?;
    Ok(Text::from_string(text))
}

// The summary's line.
fn summary(alloc: Global, state: &PlayState) -> Result<String, Memory>
    requires { AreOpen state.now }
    ensures { IfOk result (λ line. (scene : Scene) → StandsFor generated_cast scene state.now
        → Summarizes scene (string_bytes line)) }
{
    let first = open_client(state, 1);
    let second = open_client(state, 2);
    let third = open_client(state, 3);
    let word = agreement(first, second, third)?;
    let mut line = String::new(alloc);
    push_summary(alloc, &mut line, first, word)?;
    Ok(line)
}

// The client of a member, which is open.
fn open_client(state: &PlayState, member: u16) -> &PlayClient
    requires member { IsAsked member }
    requires open { AreOpen state.now }
    ensures { (scene : Scene) → StandsFor generated_cast scene state.now
        → scene.world.clients (first_device member) ≡ Some (state_of result.now) }
{
    match state.client(Device::first(member)) {
        Some(client) => client,
        None => unreachable!(),
    }
}

// How three clients stand to each other, in a word.
fn agreement(a: &PlayClient, b: &PlayClient, c: &PlayClient) -> Result<&'static str, Memory>
    ensures { IfOk result
        (λ word. TellsAgreement (state_of a.now) (state_of b.now) (state_of c.now) word.now) }
{
    let second = is_same(a, b)?;
    let third = is_same(a, c)?;
    Ok(if second && third { "same" } else { "differ" })
}

// Whether two clients have one list of chain values, and show one text.
fn is_same(one: &PlayClient, other: &PlayClient) -> Result<bool, Memory>
    ensures { IfOk result (λ same. IsTrue same ↔ AreSame (state_of one.now) (state_of other.now)) }
{
    let text = one.shown()?;
    let others = other.shown()?;
    if !are_same_texts(&text, &others) {
        return Ok(false);
    }
    Ok(are_same_hashes(one.hashes(), other.hashes()))
}

// Whether two texts are one.
fn are_same_texts(one: &String, other: &String) -> bool
    ensures { IsTrue result ↔ (string_bytes one.now ≡ string_bytes other.now) }
{
    is_same_bytes(one.as_bytes(), other.as_bytes())
}

// Whether two lists of chain values are one.
fn are_same_hashes(one: &[Digest32], other: &[Digest32]) -> bool
    ensures { IsTrue result ↔ (one.now ≡ other.now) }
{
    if one.len() != other.len() {
        return false;
    }
    for i in 0..one.len() {
        if !is_same_bytes(&one[i], &other[i]) {
            return false;
        }
    }
    true
}

// Appends the summary of a client, with this word.
fn push_summary(
    alloc: Global,
    out: &mut String,
    client: &PlayClient,
    word: &str,
) -> Result<(), Memory>
    ensures { OnOk result (string_bytes out.new
        ≡ string_bytes out.old ++ summary_line (state_of client.now) word.now) }
{
    push_counts(out, client.heads().len(), client.committed_len(), word)?;
    push_digits(alloc, out, &last_hash(client))?;
    out.push_str("\n")
}

// Appends what stands before the hash.
fn push_counts(out: &mut String, entries: u32, characters: u64, word: &str) -> Result<(), Memory>
    ensures { OnOk result (string_bytes out.new ≡ string_bytes out.old
        ++ (codes "clients 3 entries " ++ (decimal entries ++ (codes " characters "
        ++ (decimal characters ++ (codes " " ++ (word.now ++ codes " "))))))) }
{
    write!(
        out,
        "clients 3 entries {entries} characters {characters} {word} "
    )
}
