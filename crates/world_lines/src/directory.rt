//! The [`Directory`]: what the names of a run denote, and its look-ups.

ghost use Rattle.std.specs.Prelude.{◌≡◌, ◌∷◌, ◌++◌, [], IfOk, OnOk, bytes_eq, find, fold, length, option_copied, option_map};
ghost use Rattle.digest_core.specs.Tagged.{address_of_name};
ghost use Rattle.world_spec.specs.Setting.{Thing, objects_from, owned_thing, shared_thing, thing_id, with_new};
ghost use Rattle.world_spec.specs.Names.{address_name, made_named, tx_name};
ghost use Rattle.world_spec.specs.Making.{digest_named};
ghost use Rattle.world_spec.specs.Known.{known_by, world_with, with_thing, with_user};
ghost use Rattle.world_lines.specs.Openings.{with_object};
ghost use Rattle.world_lines.specs.SetUp.{with_all, with_setup};
ghost use Rattle.world_lines.specs.KnownRows.{made_as};

use crate::adding::user_row;
use crate::addresses::Addresses;
use crate::drawn::DrawnIds;
use crate::opening::without_repeats;
use crate::rows::{MadeTx, ThingRow, UserRow};
use chain_types::{Address, Content, Object, ObjectId, Owner};
use digest_core::{Digest, genesis_id};
use schedule_text::Setup;
use std::alloc::Global;
use std::marker::Model;
use tables::{NamedTable, Table};
use wire_bcs::{OutOfMemory, Seq};

/// What is known under names. Contracts see the set-up's things, and the users, transactions and drawn ids
/// so far.
#[derive(Drop)]
pub struct Directory {
    pub(crate) things: NamedTable<ThingRow>,
    pub(crate) users: Table<UserRow>,
    pub(crate) addresses: Addresses,
    pub(crate) txs: NamedTable<MadeTx>,
    pub(crate) drawn: DrawnIds,
    pub(crate) alloc: Global,
}

impl Model for Directory {
    ghost use Rattle.world_spec.specs.Known.{Known};
    ghost use Rattle.world_lines.specs.KnownRows.{known_as};

    ghost Value = { Known };

    ghost view = { λ d. known_as d.things d.users.rows d.txs d.drawn.rows };
}

impl Directory {
    /// Nothing is known. Takes no memory.
    fn empty(alloc: Global) -> Directory
        ensures { result ≡ record { things = []; users = []; txs = []; drawn = [] } }
    {
        Directory {
            things: NamedTable::new(alloc),
            users: Table::new(alloc),
            addresses: Addresses::new(alloc),
            txs: NamedTable::new(alloc),
            drawn: DrawnIds::new(alloc),
            alloc,
        }
    }

    /// What the set-up lines name, and the objects with which epoch 0 opens: of objects with the same id only the
    /// first.
    #[tactic(auto, using(crate::proofs::SetUp::all_known, crate::proofs::SetUpLines::all_objects))]
    pub fn with_opening(
        alloc: Global,
        setup: &[Setup],
    ) -> Result<(Directory, Seq<Object>), OutOfMemory>
        ensures known { IfOk result (λ x. x.0 ≡ known_by setup.now) }
        ensures opening { IfOk result (λ x. x.1 ≡ fold with_new [] (objects_from 0 setup.now)) }
    {
        let mut directory = Directory::empty(alloc);
        let mut objects = Vec::new(alloc);
        directory.set_up_all(&mut objects, setup)?;
        let opening = without_repeats(alloc, objects.as_slice())?;
        Ok((directory, Seq::from_vec(opening)))
    }

    /// Takes the names of the lines of the set-up, and adds their objects.
    fn set_up_all(&mut self, objects: &mut Vec<Object>, setup: &[Setup]) -> Result<(), OutOfMemory>
        requires { length objects.old.items ≡ length self.old.things }
        ensures known { OnOk result (self.new ≡ with_all self.old setup.now) }
        ensures objects { OnOk result (objects.new.items ≡ fold with_object objects.old.items setup.now) }
    {
        for line in setup {
            self.set_up(objects, line)?;
        }
        Ok(())
    }

    /// Takes the names of one line of the set-up, and adds its object. Things and objects are numbered alike.
    fn set_up(&mut self, objects: &mut Vec<Object>, line: &Setup) -> Result<(), OutOfMemory>
        requires { length objects.old.items ≡ length self.old.things }
        ensures known { OnOk result (self.new ≡ with_setup self.old line.now) }
        ensures objects { OnOk result (objects.new.items ≡ with_object objects.old.items line.now) }
        ensures alike { OnOk result (length objects.new.items ≡ length self.new.things) }
    {
        match line {
            Setup::Coin {
                name,
                owner,
                balance,
            } => {
                let coin = Content::Coin {
                    currency: 0,
                    balance: *balance,
                };
                self.add_owned(objects, name.as_slice(), owner.as_slice(), coin)
            }
            Setup::Counter { name, value } => {
                let counter = Content::Counter { value: *value };
                self.add_shared(objects, name.as_slice(), counter)
            }
            Setup::Cap {
                name,
                owner,
                currency,
            } => {
                let cap = Content::Cap {
                    currency: *currency,
                    supply: 0,
                };
                self.add_owned(objects, name.as_slice(), owner.as_slice(), cap)
            }
            Setup::Member { .. } | Setup::Writers(_) => Ok(()),
        }
    }

    /// Adds the set-up's next thing, which is this user's, with its object.
    fn add_owned(
        &mut self,
        objects: &mut Vec<Object>,
        name: &[u8],
        owner: &[u8],
        content: Content,
    ) -> Result<(), OutOfMemory>
        requires { length objects.old.items ≡ length self.old.things }
        ensures known { OnOk result (self.new ≡ with_user (with_thing self.old name.now) owner.now) }
        ensures objects { OnOk result (objects.new.items ≡ objects.old.items ++ owned_thing (length objects.old.items) owner.now content ∷ []) }
        ensures alike { OnOk result (length objects.new.items ≡ length self.new.things) }
    {
        let id = ObjectId(genesis_id(objects.as_slice().len() as u64));
        self.add_thing(name, id)?;
        let address = self.add_user(owner)?;
        let object = Object {
            id,
            version: 1,
            owner: Owner::Address(Address(address)),
            content,
        };
        objects.push(object)?;
        Ok(())
    }

    /// Adds the set-up's next thing, which is shared, with its object.
    fn add_shared(
        &mut self,
        objects: &mut Vec<Object>,
        name: &[u8],
        content: Content,
    ) -> Result<(), OutOfMemory>
        requires { length objects.old.items ≡ length self.old.things }
        ensures known { OnOk result (self.new ≡ with_thing self.old name.now) }
        ensures objects { OnOk result (objects.new.items ≡ objects.old.items ++ shared_thing (length objects.old.items) content ∷ []) }
        ensures alike { OnOk result (length objects.new.items ≡ length self.new.things) }
    {
        let id = ObjectId(genesis_id(objects.as_slice().len() as u64));
        self.add_thing(name, id)?;
        let object = Object {
            id,
            version: 1,
            owner: Owner::Shared(1),
            content,
        };
        objects.push(object)?;
        Ok(())
    }

    /// Adds the set-up's next thing, which has this id.
    fn add_thing(&mut self, name: &[u8], id: ObjectId) -> Result<(), OutOfMemory>
        requires { id ≡ thing_id (length self.old.things) }
        ensures { OnOk result (self.new ≡ with_thing self.old name.now) }
    {
        let thing = ThingRow {
            name: Seq::from_slice(self.alloc, name)?,
            id,
        };
        self.things.add(thing)?;
        Ok(())
    }

    /// Adds a user, and answers its address.
    fn add_user(&mut self, name: &[u8]) -> Result<Digest, OutOfMemory>
        ensures known { OnOk result (self.new ≡ with_user self.old name.now) }
        ensures address { IfOk result (λ address. address ≡ address_of_name name.now) }
    {
        let user = user_row(self.alloc, &mut self.addresses, name)?;
        let address = user.address;
        self.users.make_room(1)?;
        self.users.add(user);
        Ok(address)
    }

    /// Puts off the hashing of the ids that lines draw until one is looked up; this ends with the first line whose
    /// words name a created object, or with [`Directory::settle`]. While ids wait, looking up an id that is neither a
    /// set-up thing's nor hashed already hashes all of them. Takes no memory.
    pub fn wait(&mut self)
        ensures { self.new ≡ self.old }
    {
        self.drawn.wait();
    }

    /// Hashes all ids that wait, and puts none off from now on. If memory is refused they go on waiting, and the next
    /// line tries again.
    pub fn settle(&mut self)
        ensures { self.new ≡ self.old }
    {
        self.drawn.settle();
    }

    /// The allocator that the directory takes its memory from. There is only one.
    pub fn allocator(&self) -> Global
        ensures { (other : _) → result ≡ other }
    {
        self.alloc
    }

    /// The transaction of this name; none exactly if no line made one. Takes no memory.
    pub fn made(&self, name: &[u8]) -> Option<&MadeTx>
        ensures { option_map made_as (option_copied result) ≡ made_named (world_with self.now) name.now }
    {
        self.txs.named(name)
    }

    /// The digest of the transaction of this name; 32 zero bytes if there is none. Takes no memory.
    pub(crate) fn digest_named(&self, name: &[u8]) -> Digest
        ensures { result ≡ digest_named (world_with self.now) name.now }
    {
        match self.made(name) {
            Some(made) => made.digest,
            None => Digest([0; 32]),
        }
    }

    /// The address of the user of this name. Takes no memory.
    pub(crate) fn user_address(&self, name: &[u8]) -> Digest
        ensures { result ≡ address_of_name name.now }
    {
        self.addresses.find(name)
    }

    /// The id of the set-up's first thing of this name; none exactly if there is none. Takes no memory.
    pub(crate) fn thing_id(&self, name: &[u8]) -> Option<ObjectId>
        ensures { result ≡ option_map (λ (t : Thing). t.id) (find (λ (t : Thing). bytes_eq t.name name.now) self.now.things) }
    {
        match self.things.named(name) {
            Some(thing) => Some(thing.id),
            None => None,
        }
    }

    /// The first name of a transaction, or a question mark. Takes no memory.
    pub fn tx_name(&self, tx: &Digest) -> &[u8]
        ensures { result.now ≡ tx_name (world_with self.now) tx.now }
    {
        match self.txs.find(tx) {
            Some(made) => made.name.as_slice(),
            None => b"?".as_slice(),
        }
    }

    /// The first name of an address, or a question mark. Takes no memory.
    pub(crate) fn address_name(&self, address: &Address) -> &[u8]
        ensures { result.now ≡ address_name (world_with self.now) address.now }
    {
        match self.users.find(&address.0) {
            Some(user) => user.name.as_slice(),
            None => b"?".as_slice(),
        }
    }
}
