//! Adding a `tx` line to the directory: its transaction, the users that it names, and the ids that it names or draws.

ghost use Rattle.std.specs.Prelude.{◌≡◌, ◌∷◌, ◌++◌, [], IfOk, OnErr, OnOk, map, option_map};
ghost use Rattle.world_spec.specs.Setting.{user_of};
ghost use Rattle.world_spec.specs.Names.{draws, draws_of, drawn_by};
ghost use Rattle.world_spec.specs.Making.{drawn_input, drawn_word, user_word};
ghost use Rattle.world_spec.specs.Known.{drawn_words, users_in, with_line, world_with};
ghost use Rattle.world_lines.specs.KnownRows.{drawn_of, made_as, user_as};
ghost use Rattle.world_lines.specs.Lines.{line_of};
ghost use Rattle.world_lines.specs.Gathered.{all_some, with_some};
ghost use Rattle.world_lines.specs.Drawn.{line_rows, word_drawn};

use crate::addresses::Addresses;
use crate::directory::Directory;
use crate::drawn::{DrawnWord, LineIds};
use crate::line::TxLine;
use crate::rows::{MadeTx, UserRow};
use chain_types::Command;
use schedule_text::{InputWord, ObjWord};
use std::alloc::Global;
use wire_bcs::{OutOfMemory, Seq};

/// The row of a user of this name, with the address that is the hash of the name.
pub(crate) fn user_row(
    alloc: Global,
    addresses: &mut Addresses,
    name: &[u8],
) -> Result<UserRow, OutOfMemory>
    ensures { IfOk result (λ row. user_as row ≡ user_of name.now) }
{
    Ok(UserRow {
        name: Seq::from_slice(alloc, name)?,
        address: addresses.note(name)?,
    })
}

/// Adds the user that a word names, if it names one.
#[tactic(auto, using(crate::proofs::Gathered::map_push))]
fn add_user_word(
    alloc: Global,
    addresses: &mut Addresses,
    users: &mut Vec<UserRow>,
    word: &InputWord,
) -> Result<(), OutOfMemory>
    ensures { OnOk result (map user_as users.new.items ≡ with_some (map user_as users.old.items) (user_word word.now)) }
{
    match word {
        InputWord::Address(name) => {
            let row = user_row(alloc, addresses, name.as_slice())?;
            users.push(row)?;
            Ok(())
        }
        InputWord::Number(_)
        | InputWord::Bytes(_)
        | InputWord::Owned(_)
        | InputWord::Immutable(_)
        | InputWord::Shared { .. } => Ok(()),
    }
}

/// The users that the words of a line name: its sender and the addresses.
#[tactic(auto, using(crate::proofs::Gathered::all_added))]
fn users_of(
    alloc: Global,
    addresses: &mut Addresses,
    sender: &[u8],
    words: &[InputWord],
) -> Result<Vec<UserRow>, OutOfMemory>
    ensures { IfOk result (λ users. map user_as users.items ≡ users_in sender.now words.now) }
{
    let mut users = Vec::new(alloc);
    users.push(user_row(alloc, addresses, sender)?)?;
    for word in words {
        add_user_word(alloc, addresses, &mut users, word)?;
    }
    Ok(users)
}

/// Adds a word, if there is one.
#[tactic(auto, using(crate::proofs::Gathered::map_push))]
fn add_drawn(words: &mut Vec<DrawnWord>, word: Option<DrawnWord>) -> Result<(), OutOfMemory>
    ensures { OnOk result (map word_drawn words.new.items ≡ with_some (map word_drawn words.old.items) (option_map word_drawn word)) }
{
    match word {
        Some(word) => {
            words.push(word)?;
            Ok(())
        }
        None => Ok(()),
    }
}

/// How many ids a command draws at most. Takes no memory.
fn draws_of(command: &Command) -> usize
    ensures { result ≡ draws_of command.now }
{
    match command {
        Command::Call { .. } => 2,
        Command::Split { amounts, .. } => amounts.as_slice().len(),
        Command::Transfer { .. } | Command::Merge { .. } | Command::MakeVec { .. } => 0,
    }
}

/// How many ids the commands of a transaction draw at most. An overflow of this number counts as running out of memory.
fn draws(commands: &[Command]) -> Result<usize, OutOfMemory>
    ensures { IfOk result (λ count. count ≡ draws commands.now) }
{
    let mut count = 0usize;
    for command in commands {
        count = count.checked_add(draws_of(command)).ok_or(OutOfMemory)?;
    }
    Ok(count)
}

impl Directory {
    /// The created object that a word names, by transaction and number; none if the word names a set-up object. Takes
    /// no memory.
    fn drawn_word(&self, word: &ObjWord) -> Option<DrawnWord>
        ensures { option_map word_drawn result ≡ drawn_word (world_with self.now) word.now }
    {
        match word {
            ObjWord::Created { tx, number } => Some(DrawnWord {
                tx: self.digest_named(tx.as_slice()),
                number: *number,
            }),
            ObjWord::Setup(_) => None,
        }
    }

    /// The created object that an input's word names, by transaction and number; none if it names no such object.
    /// Takes no memory.
    fn drawn_input(&self, word: &InputWord) -> Option<DrawnWord>
        ensures { option_map word_drawn result ≡ drawn_input (world_with self.now) word.now }
    {
        match word {
            InputWord::Owned(reference) => self.drawn_word(&reference.object),
            InputWord::Immutable(reference) => self.drawn_word(&reference.object),
            InputWord::Shared { object, .. } => self.drawn_word(object),
            InputWord::Number(_) | InputWord::Address(_) | InputWord::Bytes(_) => None,
        }
    }

    /// The created objects that the words of a line name: its gas coin, and its inputs.
    #[tactic(auto, using(crate::proofs::Gathered::words_added))]
    fn drawn_words(&self, line: &TxLine<'_>) -> Result<Vec<DrawnWord>, OutOfMemory>
        ensures { IfOk result (λ words. map word_drawn words.items ≡ drawn_words self.now (line_of line.now).gas (line_of line.now).inputs) }
    {
        let mut words = Vec::new(self.alloc);
        add_drawn(&mut words, self.drawn_word(&line.gas.object))?;
        for word in line.inputs {
            add_drawn(&mut words, self.drawn_input(word))?;
        }
        Ok(words)
    }

    /// All ids that a line names or draws.
    fn drawn_of(&self, line: &TxLine<'_>, made: &MadeTx) -> Result<LineIds, OutOfMemory>
        ensures { IfOk result (λ ids. map drawn_of (line_rows ids) ≡ drawn_words self.now (line_of line.now).gas (line_of line.now).inputs ++ drawn_by made.now.digest made.now.signed.tx) }
    {
        let words = self.drawn_words(line)?;
        let count = draws(made.signed.value().tx.commands.as_slice())?;
        Ok(LineIds {
            words,
            tx: made.digest,
            count,
        })
    }

    /// The users that a line names.
    fn line_users(&mut self, line: &TxLine<'_>) -> Result<Vec<UserRow>, OutOfMemory>
        ensures users { IfOk result (λ users. map user_as users.items ≡ users_in (line_of line.now).sender (line_of line.now).inputs) }
        ensures same { self.new ≡ self.old }
    {
        users_of(self.alloc, &mut self.addresses, line.sender, line.inputs)
    }

    /// Adds a transaction, with the users and ids of its line. A refusal changes nothing.
    fn add_rows(
        &mut self,
        made: MadeTx,
        users: Vec<UserRow>,
        drawn: LineIds,
    ) -> Result<(), OutOfMemory>
        ensures ok { OnOk result (self.new ≡ record { things = self.old.things; users = self.old.users ++ map user_as users.items; txs = self.old.txs ++ made_as made ∷ []; drawn = self.old.drawn ++ map drawn_of (line_rows drawn) }) }
        ensures err { OnErr result (self.new ≡ self.old) }
    {
        self.users.make_room(users.as_slice().len())?;
        self.drawn.make_room()?;
        self.txs.add(made)?;
        self.users.add_all(users);
        self.drawn.add(drawn);
        Ok(())
    }

    /// Adds the transaction that a line makes, and the names of the line: its sender and addresses, the
    /// created objects that it names, and those that its commands can create. A refusal changes nothing.
    pub fn add_made(&mut self, line: &TxLine<'_>, made: MadeTx) -> Result<(), OutOfMemory>
        ensures ok { OnOk result (self.new ≡ with_line self.old (line_of line.now) (made_as made)) }
        ensures err { OnErr result (self.new ≡ self.old) }
    {
        let users = self.line_users(line)?;
        let drawn = self.drawn_of(line, &made)?;
        self.add_rows(made, users, drawn)
    }
}
