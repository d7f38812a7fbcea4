//! The forms of the lines.

ghost use Rattle.std.specs.Prelude.{◌≡◌, ◌≤◌, map, IfOk, IfSome, option_map, option_copied};
ghost use Rattle.std.specs.List.{list_all};
ghost use Rattle.schedule_text.specs.Cause.{Reads};
ghost use Rattle.schedule_text.specs.Bytes.{each_of, is_digits};
ghost use Rattle.schedule_text.specs.Inputs.{hex_of};
ghost use Rattle.schedule_text.specs.Commands.{is_command, command_of};
ghost use Rattle.schedule_text.specs.Lines.{member_number, role_word, member_setup, member_line, coin_line, counter_line, cap_line, writers_line, after_inputs, front_inputs, block_form, block_of, tx_line, member_and_tx, member_alone, member_and_number, tx_and_members, ack_event, is_origin, origin_of, origins_of, fvote_line, order_line, order_tx, order_end, kept_of, stop_event, stop_line, call_of, raw_value, raw_event, raw_line, ack_line, member_event, event_of, statement_of};

use crate::bytes::{has_mark, is_digits, is_name, is_word, number_in, number_of, without_mark};
use crate::cause::{Cause, LineFault};
use crate::commands::{command_of, is_command};
use crate::inputs::{hex_of, input_of, is_hex, is_input};
use crate::refs::{is_ref, ref_of};
use crate::statement::Statement;
use crate::words::{CommandWord, Event, InputWord, Setup};
use std::alloc::Global;
use wire_bcs::{OutOfMemory, Seq};

/// The number of a member. What 32 bits do not hold is read as the greatest that they do,
/// which no member has.
#[tactic(auto, unfolding(crate::specs::Lines::member_number))]
fn member_number(word: &[u8]) -> Option<u32>
    ensures { result ≡ member_number word.now }
{
    number_of(word).map(|number| number.min(u64::from(u32::MAX)) as u32)
}

/// A role: honest or not.
fn role_word(word: &[u8]) -> Option<bool>
    ensures { result ≡ role_word word.now }
{
    if is_word(word, b"honest") {
        Some(true)
    } else if is_word(word, b"faulty") {
        Some(false)
    } else {
        None
    }
}

/// The set-up line of a stake's word and a role; the form is bad if there is no role.
fn member_setup(stake: &[u8], role: Option<bool>) -> Result<Statement, LineFault>
    ensures { Reads result (member_setup stake.now role) }
{
    let Some(honest) = role else {
        return Err(LineFault::Bad(Cause::BadForm));
    };
    if !is_digits(stake) {
        return Err(LineFault::Bad(Cause::BadForm));
    }
    let Some(stake) = number_in(1, u64::from(u32::MAX), stake) else {
        return Err(LineFault::Bad(Cause::BadNumber));
    };
    Ok(Statement::Setup(Setup::Member {
        stake: stake as u32,
        honest,
    }))
}

/// `STAKE honest` or `STAKE faulty`.
#[tactic(auto, unfolding(crate::specs::Lines::member_line))]
fn member_line(words: &[&[u8]]) -> Result<Statement, LineFault>
    ensures { Reads result (member_line (map (λ w. w.now) words.now)) }
{
    let [stake, role] = words else {
        return Err(LineFault::Bad(Cause::BadForm));
    };
    member_setup(stake, role_word(role))
}

/// `NAME OWNER BALANCE`.
#[tactic(auto, unfolding(crate::specs::Lines::coin_line))]
fn coin_line(alloc: Global, words: &[&[u8]]) -> Result<Statement, LineFault>
    ensures { Reads result (coin_line (map (λ w. w.now) words.now)) }
{
    let [name, owner, balance] = words else {
        return Err(LineFault::Bad(Cause::BadForm));
    };
    if !is_name(name) || !is_name(owner) || !is_digits(balance) {
        return Err(LineFault::Bad(Cause::BadForm));
    }
    let Some(balance) = number_of(balance) else {
        return Err(LineFault::Bad(Cause::BadNumber));
    };
    Ok(Statement::Setup(Setup::Coin {
        name: Seq::from_slice(alloc, name)?,
        owner: Seq::from_slice(alloc, owner)?,
        balance,
    }))
}

/// `NAME VALUE`.
#[tactic(auto, unfolding(crate::specs::Lines::counter_line))]
fn counter_line(alloc: Global, words: &[&[u8]]) -> Result<Statement, LineFault>
    ensures { Reads result (counter_line (map (λ w. w.now) words.now)) }
{
    let [name, value] = words else {
        return Err(LineFault::Bad(Cause::BadForm));
    };
    if !is_name(name) || !is_digits(value) {
        return Err(LineFault::Bad(Cause::BadForm));
    }
    let Some(value) = number_of(value) else {
        return Err(LineFault::Bad(Cause::BadNumber));
    };
    Ok(Statement::Setup(Setup::Counter {
        name: Seq::from_slice(alloc, name)?,
        value,
    }))
}

/// `NAME OWNER CURRENCY`.
#[tactic(auto, unfolding(crate::specs::Lines::cap_line))]
fn cap_line(alloc: Global, words: &[&[u8]]) -> Result<Statement, LineFault>
    ensures { Reads result (cap_line (map (λ w. w.now) words.now)) }
{
    let [name, owner, currency] = words else {
        return Err(LineFault::Bad(Cause::BadForm));
    };
    if !is_name(name) || !is_name(owner) || !is_digits(currency) {
        return Err(LineFault::Bad(Cause::BadForm));
    }
    let Some(currency) = number_in(1, u64::MAX, currency) else {
        return Err(LineFault::Bad(Cause::BadNumber));
    };
    Ok(Statement::Setup(Setup::Cap {
        name: Seq::from_slice(alloc, name)?,
        owner: Seq::from_slice(alloc, owner)?,
        currency,
    }))
}

/// `N`, the limit of writers.
#[tactic(auto, unfolding(crate::specs::Lines::writers_line))]
fn writers_line(words: &[&[u8]]) -> Result<Statement, LineFault>
    ensures { Reads result (writers_line (map (λ w. w.now) words.now)) }
{
    let [limit] = words else {
        return Err(LineFault::Bad(Cause::BadForm));
    };
    if !is_digits(limit) {
        return Err(LineFault::Bad(Cause::BadForm));
    }
    let Some(limit) = number_in(1, 65_535, limit) else {
        return Err(LineFault::Bad(Cause::BadNumber));
    };
    Ok(Statement::Setup(Setup::Writers(limit as u32)))
}

/// The words from the first one on that is not an input.
#[tactic(auto, unfolding(crate::specs::Lines::after_inputs))]
fn after_inputs<'a, 'b>(words: &'b [&'a [u8]]) -> &'b [&'a [u8]]
    ensures { map (λ w. w.now) result.now ≡ after_inputs (map (λ w. w.now) words.now) }
{
    let mut rest = words;
    while let [word, after @ ..] = rest {
        if !is_input(word) {
            return rest;
        }
        rest = after;
    }
    rest
}

/// The inputs that the words begin with; none if one of them has a bad number.
#[tactic(auto, using(crate::proofs::Each::each_more, crate::proofs::Each::after_none), unfolding(crate::specs::Lines::front_inputs))]
fn front_inputs(alloc: Global, words: &[&[u8]]) -> Result<Option<Seq<InputWord>>, OutOfMemory>
    ensures { IfOk result (λ r. r ≡ front_inputs (map (λ w. w.now) words.now)) }
{
    let mut inputs = Seq::new(alloc);
    let mut rest = words;
    while let [word, after @ ..] = rest {
        if !is_input(word) {
            return Ok(Some(inputs));
        }
        let Some(input) = input_of(alloc, word)? else {
            return Ok(None);
        };
        inputs.push(input)?;
        rest = after;
    }
    Ok(Some(inputs))
}

/// Whether each word is a command.
fn are_commands(words: &[&[u8]]) -> bool
    ensures { result ≡ list_all is_command (map (λ w. w.now) words.now) }
{
    let mut rest = words;
    while let [word, after @ ..] = rest {
        if !is_command(word) {
            return false;
        }
        rest = after;
    }
    true
}

/// The commands that the words are.
#[tactic(auto, using(crate::proofs::Each::each_more, crate::proofs::Each::after_none), unfolding(crate::specs::Bytes::each_of))]
fn commands_of(alloc: Global, words: &[&[u8]]) -> Result<Option<Seq<CommandWord>>, OutOfMemory>
    ensures { IfOk result (λ r. r ≡ each_of command_of (map (λ w. w.now) words.now)) }
{
    let mut commands = Seq::new(alloc);
    let mut rest = words;
    while let [word, after @ ..] = rest {
        let Some(command) = command_of(alloc, word)? else {
            return Ok(None);
        };
        commands.push(command)?;
        rest = after;
    }
    Ok(Some(commands))
}

/// Whether each word is digits.
fn are_all_digits(words: &[&[u8]]) -> bool
    ensures { result ≡ list_all is_digits (map (λ w. w.now) words.now) }
{
    let mut rest = words;
    while let [word, after @ ..] = rest {
        if !is_digits(word) {
            return false;
        }
        rest = after;
    }
    true
}

/// The numbers of members.
#[tactic(auto, using(crate::proofs::Each::each_more, crate::proofs::Each::after_none), unfolding(crate::specs::Bytes::each_of))]
fn members_of(alloc: Global, words: &[&[u8]]) -> Result<Option<Seq<u32>>, OutOfMemory>
    ensures { IfOk result (λ r. r ≡ each_of member_number (map (λ w. w.now) words.now)) }
{
    let mut members = Seq::new(alloc);
    let mut rest = words;
    while let [word, after @ ..] = rest {
        let Some(member) = member_number(word) else {
            return Ok(None);
        };
        members.push(member)?;
        rest = after;
    }
    Ok(Some(members))
}

/// Whether the word is `-` or a name.
fn is_origin(word: &[u8]) -> bool
    ensures { result ≡ is_origin word.now }
{
    is_word(word, b"-") || is_name(word)
}

fn are_origins(words: &[&[u8]]) -> bool
    ensures { result ≡ list_all is_origin (map (λ w. w.now) words.now) }
{
    let mut rest = words;
    while let [word, after @ ..] = rest {
        if !is_origin(word) {
            return false;
        }
        rest = after;
    }
    true
}

/// The transaction of an origin word, or none for `-`.
fn origin_of(alloc: Global, word: &[u8]) -> Result<Option<Seq<u8>>, OutOfMemory>
    ensures { IfOk result (λ r. r ≡ origin_of word.now) }
{
    if is_word(word, b"-") {
        Ok(None)
    } else {
        Ok(Some(Seq::from_slice(alloc, word)?))
    }
}

#[tactic(auto, unfolding(crate::specs::Lines::origins_of))]
fn origins_of(alloc: Global, words: &[&[u8]]) -> Result<Seq<Option<Seq<u8>>>, OutOfMemory>
    ensures { IfOk result (λ r. r ≡ origins_of (map (λ w. w.now) words.now)) }
{
    let mut origins = Seq::new(alloc);
    let mut rest = words;
    while let [word, after @ ..] = rest {
        origins.push(origin_of(alloc, word)?)?;
        rest = after;
    }
    Ok(origins)
}

/// Whether the words are `REF BUDGET`, inputs and commands.
#[tactic(auto, unfolding(crate::specs::Lines::block_form))]
fn block_form(words: &[&[u8]]) -> bool
    ensures { result ≡ block_form (map (λ w. w.now) words.now) }
{
    match words {
        [gas, budget, words @ ..] => {
            is_ref(gas) && is_digits(budget) && are_commands(after_inputs(words))
        }
        _ => false,
    }
}

/// The transaction of `REF BUDGET`, inputs and commands.
#[tactic(auto, unfolding(crate::specs::Lines::block_of))]
fn block_of(
    alloc: Global,
    name: &[u8],
    sender: &[u8],
    epoch: u64,
    words: &[&[u8]],
) -> Result<Option<Event>, OutOfMemory>
    ensures { IfOk result
        (λ r. r ≡ block_of name.now sender.now epoch (map (λ w. w.now) words.now)) }
{
    let [gas, budget, words @ ..] = words else {
        return Ok(None);
    };
    let Some(gas) = ref_of(alloc, gas)? else {
        return Ok(None);
    };
    let Some(budget) = number_of(budget) else {
        return Ok(None);
    };
    let Some(inputs) = front_inputs(alloc, words)? else {
        return Ok(None);
    };
    let Some(commands) = commands_of(alloc, after_inputs(words))? else {
        return Ok(None);
    };
    Ok(Some(Event::Tx {
        name: Seq::from_slice(alloc, name)?,
        sender: Seq::from_slice(alloc, without_mark(b'?', sender))?,
        spoiled: has_mark(b'?', sender),
        epoch,
        gas,
        budget,
        inputs,
        commands,
    }))
}

/// `NAME SENDER EPOCH REF BUDGET`, inputs and commands.
#[tactic(auto, unfolding(crate::specs::Lines::tx_line))]
fn tx_line(alloc: Global, words: &[&[u8]]) -> Result<Event, LineFault>
    ensures { Reads result (tx_line (map (λ w. w.now) words.now)) }
{
    let [name, sender, epoch, words @ ..] = words else {
        return Err(LineFault::Bad(Cause::BadForm));
    };
    if !is_name(name)
        || !is_name(without_mark(b'?', sender))
        || !is_digits(epoch)
        || !block_form(words)
    {
        return Err(LineFault::Bad(Cause::BadForm));
    }
    let Some(epoch) = number_of(epoch) else {
        return Err(LineFault::Bad(Cause::BadNumber));
    };
    let Some(event) = block_of(alloc, name, sender, epoch, words)? else {
        return Err(LineFault::Bad(Cause::BadNumber));
    };
    Ok(event)
}

/// Reads the words `M T`: a member and a transaction.
#[tactic(auto, unfolding(crate::specs::Lines::member_and_tx))]
fn member_and_tx(alloc: Global, words: &[&[u8]]) -> Result<(u32, Seq<u8>), LineFault>
    ensures { Reads result (member_and_tx (map (λ w. w.now) words.now)) }
{
    let [member, tx] = words else {
        return Err(LineFault::Bad(Cause::BadForm));
    };
    if !is_digits(member) || !is_name(tx) {
        return Err(LineFault::Bad(Cause::BadForm));
    }
    let Some(member) = member_number(member) else {
        return Err(LineFault::Bad(Cause::BadNumber));
    };
    Ok((member, Seq::from_slice(alloc, tx)?))
}

/// Reads the word `M`: a member.
#[tactic(auto, unfolding(crate::specs::Lines::member_alone))]
fn member_alone(words: &[&[u8]]) -> Result<u32, LineFault>
    ensures { Reads result (member_alone (map (λ w. w.now) words.now)) }
{
    let [member] = words else {
        return Err(LineFault::Bad(Cause::BadForm));
    };
    if !is_digits(member) {
        return Err(LineFault::Bad(Cause::BadForm));
    }
    let Some(member) = member_number(member) else {
        return Err(LineFault::Bad(Cause::BadNumber));
    };
    Ok(member)
}

/// Reads the words `M N`: a member, and a number from 1 to `most`.
#[tactic(auto, unfolding(crate::specs::Lines::member_and_number))]
fn member_and_number(most: u32, words: &[&[u8]]) -> Result<(u32, u32), LineFault>
    ensures { Reads result (member_and_number most (map (λ w. w.now) words.now)) }
{
    let [member, number] = words else {
        return Err(LineFault::Bad(Cause::BadForm));
    };
    if !is_digits(member) || !is_digits(number) {
        return Err(LineFault::Bad(Cause::BadForm));
    }
    let Some(member) = member_number(member) else {
        return Err(LineFault::Bad(Cause::BadNumber));
    };
    let Some(number) = number_in(1, u64::from(most), number) else {
        return Err(LineFault::Bad(Cause::BadNumber));
    };
    Ok((member, number as u32))
}

/// Reads the words `T M ..`: a transaction, and one member or more.
#[tactic(auto, unfolding(crate::specs::Lines::tx_and_members))]
fn tx_and_members(alloc: Global, words: &[&[u8]]) -> Result<(Seq<u8>, Seq<u32>), LineFault>
    ensures { Reads result (tx_and_members (map (λ w. w.now) words.now)) }
{
    let [tx, members @ ..] = words else {
        return Err(LineFault::Bad(Cause::BadForm));
    };
    if !is_name(tx) || members.is_empty() || !are_all_digits(members) {
        return Err(LineFault::Bad(Cause::BadForm));
    }
    let Some(members) = members_of(alloc, members)? else {
        return Err(LineFault::Bad(Cause::BadNumber));
    };
    Ok((Seq::from_slice(alloc, tx)?, members))
}

/// `M T` and origins.
#[tactic(auto, unfolding(crate::specs::Lines::fvote_line))]
fn fvote_line(alloc: Global, words: &[&[u8]]) -> Result<Event, LineFault>
    ensures { Reads result (fvote_line (map (λ w. w.now) words.now)) }
{
    let [member, tx, origins @ ..] = words else {
        return Err(LineFault::Bad(Cause::BadForm));
    };
    if !is_digits(member) || !is_name(tx) || !are_origins(origins) {
        return Err(LineFault::Bad(Cause::BadForm));
    }
    let Some(member) = member_number(member) else {
        return Err(LineFault::Bad(Cause::BadNumber));
    };
    Ok(Event::Fvote {
        member,
        tx: Seq::from_slice(alloc, tx)?,
        origins: origins_of(alloc, origins)?,
    })
}

/// `T` or `commit`.
#[tactic(auto, unfolding(crate::specs::Lines::order_tx))]
fn order_tx(alloc: Global, tx: &[u8]) -> Result<Event, LineFault>
    ensures { Reads result (order_tx tx.now) }
{
    if is_word(tx, b"commit") {
        return Ok(Event::OrderCommit);
    }
    if !is_name(tx) {
        return Err(LineFault::Bad(Cause::BadForm));
    }
    Ok(Event::Order(Seq::from_slice(alloc, tx)?))
}

/// `end M`.
#[tactic(auto, unfolding(crate::specs::Lines::order_end))]
fn order_end(word: &[u8], member: &[u8]) -> Result<Event, LineFault>
    ensures { Reads result (order_end word.now member.now) }
{
    if !is_word(word, b"end") || !is_digits(member) {
        return Err(LineFault::Bad(Cause::BadForm));
    }
    let Some(member) = member_number(member) else {
        return Err(LineFault::Bad(Cause::BadNumber));
    };
    Ok(Event::OrderEnd(member))
}

/// `T`, `commit` or `end M`.
#[tactic(auto, unfolding(crate::specs::Lines::order_line))]
fn order_line(alloc: Global, words: &[&[u8]]) -> Result<Event, LineFault>
    ensures { Reads result (order_line (map (λ w. w.now) words.now)) }
{
    match words {
        [tx] => order_tx(alloc, tx),
        [word, member] => order_end(word, member),
        _ => Err(LineFault::Bad(Cause::BadForm)),
    }
}

/// What a stop does with the next record: `kept` is true, `lost` false, and any other word no value.
fn kept_of(word: &[u8]) -> Option<bool>
    ensures { result ≡ kept_of word.now }
{
    if is_word(word, b"kept") {
        Some(true)
    } else if is_word(word, b"lost") {
        Some(false)
    } else {
        None
    }
}

/// A member and whether its record is kept.
fn stop_event(member: &[u8], kept: Option<bool>) -> Result<Event, LineFault>
    ensures { Reads result (stop_event member.now kept) }
{
    let Some(kept) = kept else {
        return Err(LineFault::Bad(Cause::BadForm));
    };
    if !is_digits(member) {
        return Err(LineFault::Bad(Cause::BadForm));
    }
    let Some(member) = member_number(member) else {
        return Err(LineFault::Bad(Cause::BadNumber));
    };
    Ok(Event::Stop { member, kept })
}

/// `M kept` or `M lost`.
#[tactic(auto, unfolding(crate::specs::Lines::stop_line))]
fn stop_line(words: &[&[u8]]) -> Result<Event, LineFault>
    ensures { Reads result (stop_line (map (λ w. w.now) words.now)) }
{
    let [member, kept] = words else {
        return Err(LineFault::Bad(Cause::BadForm));
    };
    stop_event(member, kept_of(kept))
}

/// The call that a `raw` line makes: `vote` is true, `hold` false, and any other word no value.
fn call_of(word: &[u8]) -> Option<bool>
    ensures { result ≡ call_of word.now }
{
    if is_word(word, b"vote") {
        Some(true)
    } else if is_word(word, b"hold") {
        Some(false)
    } else {
        None
    }
}

fn raw_value(vote: bool, member: u32, bytes: Seq<u8>) -> Event
    ensures { result ≡ raw_value vote member bytes }
{
    if vote {
        Event::RawVote { member, bytes }
    } else {
        Event::RawHold { member, bytes }
    }
}

/// A member, the call, and the bytes.
fn raw_event(
    alloc: Global,
    member: &[u8],
    call: Option<bool>,
    bytes: &[u8],
) -> Result<Event, LineFault>
    ensures { Reads result (raw_event member.now call bytes.now) }
{
    let Some(vote) = call else {
        return Err(LineFault::Bad(Cause::BadForm));
    };
    if !is_digits(member) || bytes.is_empty() || !is_hex(bytes) {
        return Err(LineFault::Bad(Cause::BadForm));
    }
    let Some(member) = member_number(member) else {
        return Err(LineFault::Bad(Cause::BadNumber));
    };
    let Some(bytes) = hex_of(alloc, bytes)? else {
        return Err(LineFault::Bad(Cause::BadNumber));
    };
    Ok(raw_value(vote, member, bytes))
}

/// `M vote HEX` or `M hold HEX`.
#[tactic(auto, unfolding(crate::specs::Lines::raw_line))]
fn raw_line(alloc: Global, words: &[&[u8]]) -> Result<Event, LineFault>
    ensures { Reads result (raw_line (map (λ w. w.now) words.now)) }
{
    let [member, call, bytes] = words else {
        return Err(LineFault::Bad(Cause::BadForm));
    };
    raw_event(alloc, member, call_of(call), bytes)
}

/// A member, a transaction, and whether the digest is spoiled.
#[tactic(auto, unfolding(crate::specs::Lines::ack_event))]
fn ack_event(alloc: Global, member: &[u8], tx: &[u8], spoiled: bool) -> Result<Event, LineFault>
    ensures { Reads result (ack_event member.now tx.now spoiled) }
{
    if !is_digits(member) || !is_name(tx) {
        return Err(LineFault::Bad(Cause::BadForm));
    }
    let Some(member) = member_number(member) else {
        return Err(LineFault::Bad(Cause::BadNumber));
    };
    Ok(Event::Ack {
        member,
        tx: Seq::from_slice(alloc, tx)?,
        spoiled,
    })
}

/// `M T`, or `M T !`.
#[tactic(auto, unfolding(crate::specs::Lines::ack_line))]
fn ack_line(alloc: Global, words: &[&[u8]]) -> Result<Event, LineFault>
    ensures { Reads result (ack_line (map (λ w. w.now) words.now)) }
{
    match words {
        [member, tx] => ack_event(alloc, member, tx, false),
        [member, tx, mark] if is_word(mark, b"!") => ack_event(alloc, member, tx, true),
        _ => Err(LineFault::Bad(Cause::BadForm)),
    }
}

/// The event of a line whose second word is a member.
#[tactic(auto, unfolding(crate::specs::Lines::member_event))]
fn member_event(alloc: Global, word: &[u8], words: &[&[u8]]) -> Result<Event, LineFault>
    ensures { Reads result (member_event word.now (map (λ w. w.now) words.now)) }
{
    if is_word(word, b"see") {
        let (member, entries) = member_and_number(u32::MAX, words)?;
        return Ok(Event::See { member, entries });
    }
    if is_word(word, b"run") {
        let (member, workers) = member_and_number(16, words)?;
        return Ok(Event::Run { member, workers });
    }
    if is_word(word, b"close") {
        return member_alone(words).map(Event::Close);
    }
    if is_word(word, b"end") {
        return member_alone(words).map(Event::End);
    }
    if is_word(word, b"turn") {
        return member_alone(words).map(Event::Turn);
    }
    if is_word(word, b"show") {
        return member_alone(words).map(Event::Show);
    }
    if is_word(word, b"restart") {
        return member_alone(words).map(Event::Restart);
    }
    if is_word(word, b"stop") {
        return stop_line(words);
    }
    if is_word(word, b"raw") {
        return raw_line(alloc, words);
    }
    Err(LineFault::Bad(Cause::BadForm))
}

/// The event of any event line.
#[tactic(auto, unfolding(crate::specs::Lines::event_of))]
fn event_of(alloc: Global, word: &[u8], words: &[&[u8]]) -> Result<Event, LineFault>
    ensures { Reads result (event_of word.now (map (λ w. w.now) words.now)) }
{
    if is_word(word, b"tx") {
        return tx_line(alloc, words);
    }
    if is_word(word, b"vote") {
        let (member, tx) = member_and_tx(alloc, words)?;
        return Ok(Event::Vote { member, tx });
    }
    if is_word(word, b"fvote") {
        return fvote_line(alloc, words);
    }
    if is_word(word, b"cert") {
        let (tx, members) = tx_and_members(alloc, words)?;
        return Ok(Event::Cert { tx, members });
    }
    if is_word(word, b"send") {
        let (member, tx) = member_and_tx(alloc, words)?;
        return Ok(Event::Send { member, tx });
    }
    if is_word(word, b"order") {
        return order_line(alloc, words);
    }
    if is_word(word, b"ack") {
        return ack_line(alloc, words);
    }
    if is_word(word, b"final") {
        let (tx, members) = tx_and_members(alloc, words)?;
        return Ok(Event::Final { tx, members });
    }
    member_event(alloc, word, words)
}

/// The line of these words.
#[tactic(auto, unfolding(crate::specs::Lines::statement_of))]
pub(crate) fn statement_of(alloc: Global, words: &[&[u8]]) -> Result<Statement, LineFault>
    ensures { Reads result (statement_of (map (λ w. w.now) words.now)) }
{
    let [word, words @ ..] = words else {
        return Err(LineFault::Bad(Cause::BadForm));
    };
    if is_word(word, b"member") {
        return member_line(words);
    }
    if is_word(word, b"coin") {
        return coin_line(alloc, words);
    }
    if is_word(word, b"counter") {
        return counter_line(alloc, words);
    }
    if is_word(word, b"cap") {
        return cap_line(alloc, words);
    }
    if is_word(word, b"writers") {
        return writers_line(words);
    }
    Ok(Statement::Event(event_of(alloc, word, words)?))
}
