//! The schedule so far, with what its lines made known kept where it is found without a scan.

ghost use Rattle.std.specs.Prelude.{◌≡◌, [], ◌++◌, IfOk, length, nat_lt, slice_get, OnOk, IsTrue, IfSome, option_copied};
ghost use Rattle.std.specs.Option.{option_to_list};
ghost use Rattle.schedule_text.specs.Cause.{Reads, ReadsInto};
ghost use Rattle.schedule_text.specs.Known.{check, tx_check, object_check, input_check, origin_check, each_check, member_check, role_check, also, collect_check, new_object_check, setup_kind_check, setup_check, new_tx_check, fvote_check, ack_check, role_of, object_name, currency_of, is_limit, tx_name, event_check, add_setup, add_event, add_line};
ghost use Rattle.schedule_text.specs.Agrees.{Agrees, IsNewName, IsNewNumber, no_lines};

use crate::cause::{Cause, LineFault};
use crate::names::Names;
use crate::statement::Statement;
use crate::words::{Event, InputWord, ObjWord, Schedule, Setup};
use indexmap::IndexSet;
use std::alloc::Global;
use wire_bcs::{OutOfMemory, Seq, ascends};

/// The most members of a committee.
const MOST_MEMBERS: u64 = 64;

/// The most transactions of a schedule.
const MOST_TRANSACTIONS: usize = 65_535;

/// The schedule so far. The other fields say the same about it, each in a form that answers fast.
#[derive(Drop)]
pub(crate) struct Reading {
    pub(crate) schedule: Schedule,
    /// Of each member, whether it is honest.
    pub(crate) roles: Seq<bool>,
    /// The names of the set-up objects.
    pub(crate) objects: Names,
    /// The names of the transactions.
    pub(crate) txs: Names,
    /// The currencies of the caps.
    pub(crate) currencies: IndexSet<u64>,
    /// Whether the limit of writers is set.
    pub(crate) limited: bool,
}

fn check(holds: bool, cause: Cause) -> Result<(), Cause>
    ensures { result ≡ check holds cause }
{
    if holds { Ok(()) } else { Err(cause) }
}

impl Reading {
    /// The state before the first line.
    #[tactic(auto, unfolding(crate::specs::Known::roles, crate::specs::Known::object_names, crate::specs::Known::tx_names, crate::specs::Known::currencies, crate::specs::Known::has_limit))]
    pub(crate) fn new(alloc: Global) -> Reading
        ensures empty { result.schedule ≡ no_lines }
        ensures agrees { Agrees result }
    {
        Reading {
            schedule: Schedule {
                setup: Seq::new(alloc),
                events: Seq::new(alloc),
            },
            roles: Seq::new(alloc),
            objects: Names::new(alloc),
            txs: Names::new(alloc),
            currencies: IndexSet::new(alloc),
            limited: false,
        }
    }

    /// The schedule, without what says the same about it.
    pub(crate) fn into_schedule(self) -> Schedule
        ensures { result ≡ self.schedule }
    {
        self.schedule
    }

    fn tx_check(&self, tx: &[u8]) -> Result<(), Cause>
        requires { Agrees self.now }
        ensures { result ≡ tx_check self.now.schedule tx.now }
    {
        check(self.txs.has(tx), Cause::UnknownName)
    }

    fn object_check(&self, object: &ObjWord) -> Result<(), Cause>
        requires { Agrees self.now }
        ensures { result ≡ object_check self.now.schedule object.now }
    {
        match object {
            ObjWord::Setup(name) => check(self.objects.has(name.as_slice()), Cause::UnknownName),
            ObjWord::Created { tx, number: _ } => self.tx_check(tx.as_slice()),
        }
    }

    fn input_check(&self, input: &InputWord) -> Result<(), Cause>
        requires { Agrees self.now }
        ensures { result ≡ input_check self.now.schedule input.now }
    {
        match input {
            InputWord::Number(_) | InputWord::Address(_) | InputWord::Bytes(_) => Ok(()),
            InputWord::Owned(word) | InputWord::Immutable(word) => self.object_check(&word.object),
            InputWord::Shared {
                object,
                initial: _,
                mutable: _,
            } => self.object_check(object),
        }
    }

    fn origin_check(&self, origin: Option<&Seq<u8>>) -> Result<(), Cause>
        requires { Agrees self.now }
        ensures { result ≡ origin_check self.now.schedule (option_copied origin.entry) }
    {
        match origin {
            Some(tx) => self.tx_check(tx.as_slice()),
            None => Ok(()),
        }
    }

    fn member_check(&self, member: u32) -> Result<(), Cause>
        requires { Agrees self.now }
        ensures { result ≡ member_check self.now.schedule member }
    {
        check(u64::from(member) < self.roles.len(), Cause::UnknownMember)
    }

    fn role_check(&self, honest: bool, member: u32) -> Result<(), Cause>
        requires { Agrees self.now }
        ensures { result ≡ role_check honest self.now.schedule member }
    {
        match self.roles.as_slice().get(member as usize) {
            Some(role) => check(*role == honest, Cause::WrongRole),
            None => Err(Cause::UnknownMember),
        }
    }

    fn new_object_check(&self, name: &[u8]) -> Result<(), Cause>
        requires { Agrees self.now }
        ensures { result ≡ new_object_check self.now.schedule name.now }
    {
        check(!self.objects.has(name), Cause::RepeatedName)
    }

    #[tactic(auto, unfolding(crate::specs::Known::setup_kind_check))]
    fn setup_kind_check(&self, setup: &Setup) -> Result<(), Cause>
        requires { Agrees self.now }
        ensures { result ≡ setup_kind_check self.now.schedule setup.now }
    {
        match setup {
            Setup::Member {
                stake: _,
                honest: _,
            } => check(self.roles.len() < MOST_MEMBERS, Cause::TooManyMembers),
            Setup::Coin {
                name,
                owner: _,
                balance: _,
            }
            | Setup::Counter { name, value: _ } => self.new_object_check(name.as_slice()),
            Setup::Cap {
                name,
                owner: _,
                currency,
            } => {
                self.new_object_check(name.as_slice())?;
                check(!self.currencies.contains(currency), Cause::BadOrder)
            }
            Setup::Writers(_) => check(!self.limited, Cause::BadOrder),
        }
    }

    #[tactic(auto, unfolding(crate::specs::Known::setup_check))]
    fn setup_check(&self, setup: &Setup) -> Result<(), Cause>
        requires { Agrees self.now }
        ensures { result ≡ setup_check self.now.schedule setup.now }
    {
        check(self.schedule.events.is_empty(), Cause::LateSetup)?;
        self.setup_kind_check(setup)
    }

    #[tactic(auto, unfolding(crate::specs::Known::each_check))]
    fn inputs_check(&self, inputs: &[InputWord]) -> Result<(), Cause>
        requires { Agrees self.now }
        ensures { result ≡ each_check (input_check self.now.schedule) inputs.now }
    {
        let mut rest = inputs;
        while let [input, after @ ..] = rest {
            self.input_check(input)?;
            rest = after;
        }
        Ok(())
    }

    #[tactic(auto, unfolding(crate::specs::Known::each_check))]
    fn origins_check(&self, origins: &[Option<Seq<u8>>]) -> Result<(), Cause>
        requires { Agrees self.now }
        ensures { result ≡ each_check (origin_check self.now.schedule) origins.now }
    {
        let mut rest = origins;
        while let [origin, after @ ..] = rest {
            self.origin_check(origin.as_ref())?;
            rest = after;
        }
        Ok(())
    }

    #[tactic(auto, unfolding(crate::specs::Known::each_check))]
    fn members_check(&self, members: &[u32]) -> Result<(), Cause>
        requires { Agrees self.now }
        ensures { result ≡ each_check (member_check self.now.schedule) members.now }
    {
        let mut rest = members;
        while let [member, after @ ..] = rest {
            self.member_check(*member)?;
            rest = after;
        }
        Ok(())
    }

    fn collect_check(&self, tx: &[u8], members: &[u32]) -> Result<(), Cause>
        requires { Agrees self.now }
        ensures { result ≡ collect_check self.now.schedule tx.now members.now }
    {
        self.tx_check(tx)?;
        self.members_check(members)?;
        check(ascends(members), Cause::BadOrder)
    }

    fn tx_and_role_check(&self, tx: &[u8], honest: bool, member: u32) -> Result<(), Cause>
        requires { Agrees self.now }
        ensures { result ≡ also (tx_check self.now.schedule tx.now) (role_check honest self.now.schedule member) }
    {
        self.tx_check(tx)?;
        self.role_check(honest, member)
    }

    #[tactic(auto, unfolding(crate::specs::Known::new_tx_check))]
    fn new_tx_check(&self, name: &[u8], gas: &ObjWord, inputs: &[InputWord]) -> Result<(), Cause>
        requires { Agrees self.now }
        ensures { result ≡ new_tx_check self.now.schedule name.now gas.now inputs.now }
    {
        check(
            self.txs.len() < MOST_TRANSACTIONS,
            Cause::TooManyTransactions,
        )?;
        check(!self.txs.has(name), Cause::RepeatedName)?;
        self.object_check(gas)?;
        self.inputs_check(inputs)
    }

    #[tactic(auto, unfolding(crate::specs::Known::event_check))]
    fn event_check(&self, event: &Event) -> Result<(), Cause>
        requires { Agrees self.now }
        ensures { result ≡ event_check self.now.schedule event.now }
    {
        match event {
            Event::Tx {
                name,
                sender: _,
                spoiled: _,
                epoch: _,
                gas,
                budget: _,
                inputs,
                commands: _,
            } => self.new_tx_check(name.as_slice(), &gas.object, inputs.as_slice()),
            Event::Vote { member, tx } | Event::Send { member, tx } => {
                self.tx_and_role_check(tx.as_slice(), true, *member)
            }
            Event::Fvote {
                member,
                tx,
                origins,
            } => self.fvote_check(*member, tx.as_slice(), origins.as_slice()),
            Event::Cert { tx, members } | Event::Final { tx, members } => {
                self.collect_check(tx.as_slice(), members.as_slice())
            }
            Event::Order(tx) => self.tx_check(tx.as_slice()),
            Event::OrderEnd(member) => self.member_check(*member),
            Event::OrderCommit => Ok(()),
            Event::See { member, entries: _ }
            | Event::Run { member, workers: _ }
            | Event::Close(member)
            | Event::End(member)
            | Event::Turn(member)
            | Event::Show(member)
            | Event::Stop { member, kept: _ }
            | Event::Restart(member)
            | Event::RawVote { member, bytes: _ }
            | Event::RawHold { member, bytes: _ } => self.role_check(true, *member),
            Event::Ack {
                member,
                tx,
                spoiled,
            } => self.ack_check(*member, tx.as_slice(), *spoiled),
        }
    }

    #[tactic(auto, unfolding(crate::specs::Known::fvote_check))]
    fn fvote_check(&self, member: u32, tx: &[u8], origins: &[Option<Seq<u8>>]) -> Result<(), Cause>
        requires { Agrees self.now }
        ensures { result ≡ fvote_check self.now.schedule member tx.now origins.now }
    {
        self.tx_check(tx)?;
        self.origins_check(origins)?;
        self.role_check(false, member)
    }

    #[tactic(auto, unfolding(crate::specs::Known::ack_check))]
    fn ack_check(&self, member: u32, tx: &[u8], spoiled: bool) -> Result<(), Cause>
        requires { Agrees self.now }
        ensures { result ≡ ack_check self.now.schedule member tx.now spoiled }
    {
        self.tx_check(tx)?;
        if spoiled {
            self.role_check(false, member)
        } else {
            self.member_check(member)
        }
    }

    /// Puts a set-up line at the end, if nothing is wrong with it.
    pub(crate) fn add_setup(&mut self, alloc: Global, setup: Setup) -> Result<(), LineFault>
        requires { Agrees self.old }
        ensures reads { ReadsInto result self.new.schedule (add_setup self.old.schedule setup) }
        ensures agrees { OnOk result (Agrees self.new) }
    {
        self.setup_check(&setup)?;
        add_role(&mut self.roles, &setup)?;
        add_object_name(&mut self.objects, alloc, &setup)?;
        add_currency(&mut self.currencies, &setup)?;
        self.limited |= is_limit(&setup);
        self.schedule.setup.push(setup)?;
        Ok(())
    }

    /// Adds the transaction's name that the event gives, if nothing is wrong with the event.
    fn note_event(&mut self, alloc: Global, event: &Event) -> Result<(), LineFault>
        requires { Agrees self.old }
        ensures reads { Reads result (event_check self.old.schedule event.now) }
        ensures after { OnOk result (self.new ≡ record self.old { txs = self.old.txs ++ option_to_list (tx_name event.now) }) }
    {
        self.event_check(event)?;
        add_tx_name(&mut self.txs, alloc, event)?;
        Ok(())
    }

    /// Puts an event at the end, if nothing is wrong with it.
    pub(crate) fn add_event(&mut self, alloc: Global, event: Event) -> Result<(), LineFault>
        requires { Agrees self.old }
        ensures reads { ReadsInto result self.new.schedule (add_event self.old.schedule event) }
        ensures agrees { OnOk result (Agrees self.new) }
    {
        if let Err(fault) = self.note_event(alloc, &event) {
            drop(event);
            return Err(fault);
        }
        self.schedule.events.push(event)?;
        Ok(())
    }
}

fn add_role(roles: &mut Seq<bool>, setup: &Setup) -> Result<(), OutOfMemory>
    ensures { OnOk result (roles.new ≡ roles.old ++ option_to_list (role_of setup.now)) }
{
    match setup {
        Setup::Member { stake: _, honest } => roles.push(*honest),
        Setup::Coin { .. } | Setup::Counter { .. } | Setup::Cap { .. } | Setup::Writers(_) => Ok(
            (),
        ),
    }
}

fn add_object_name(objects: &mut Names, alloc: Global, setup: &Setup) -> Result<(), OutOfMemory>
    requires { IsNewName objects.old (object_name setup.now) }
    ensures { OnOk result (objects.new ≡ objects.old ++ option_to_list (object_name setup.now)) }
{
    match setup {
        Setup::Coin { name, .. } | Setup::Counter { name, .. } | Setup::Cap { name, .. } => {
            objects.add(alloc, name.as_slice())
        }
        Setup::Member { .. } | Setup::Writers(_) => Ok(()),
    }
}

fn add_currency(currencies: &mut IndexSet<u64>, setup: &Setup) -> Result<(), OutOfMemory>
    requires { IsNewNumber currencies.old.keys (currency_of setup.now) }
    ensures { OnOk result
        (currencies.new.keys ≡ currencies.old.keys ++ option_to_list (currency_of setup.now)) }
{
    if let Setup::Cap { currency, .. } = setup {
        currencies.insert(*currency)?;
    }
    Ok(())
}

fn is_limit(setup: &Setup) -> bool
    ensures { result ≡ is_limit setup.now }
{
    matches!(setup, Setup::Writers(_))
}

fn add_tx_name(txs: &mut Names, alloc: Global, event: &Event) -> Result<(), OutOfMemory>
    requires { IsNewName txs.old (tx_name event.now) }
    ensures { OnOk result (txs.new ≡ txs.old ++ option_to_list (tx_name event.now)) }
{
    match event {
        Event::Tx { name, .. } => txs.add(alloc, name.as_slice()),
        _ => Ok(()),
    }
}
