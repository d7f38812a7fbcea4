//! The lines of a report that say what members answered, and what members said in a run.
//!
//! Each call turns an answer into the endings or lines that a report has for it, in which a
//! [`Directory`] names transactions, versions and objects. An answer is only read.
//!
//! A [`StatementLog`] keeps all statements, oldest first, and finds by maps a member's last vote for a transaction, its
//! last End, and its last acknowledgement of a transaction in an epoch; [`StatementLog::collect`] and
//! [`StatementLog::collect_acks`] say what the last votes and acknowledgements of members give. A
//! [`FormedCertificates`] keeps the certificates under the names for which they were formed, and finds the last of a
//! name by a map. [`certify`] collects the votes of members with the seals that they put on them. A [`ConsensusLog`]
//! keeps the sequences of the epochs, each entry encoded once, and beside them the Ends of the open epoch, since only
//! Ends say whether it has ended. Each answer is the definition's, which one equation for each call states.
//!
//! The crate also has what the names of a run denote, and makes the transaction of a line.
//!
//! A [`Directory`] begins with the set-up lines; [`Directory::add_made`] adds a transaction and the names of its line.
//! A name counts from its line on, and the first name of a thing is the one that is shown. Contracts see the four
//! lists, and each answer is that of the definitions on them. Look-ups are by maps: none scans what is known, except
//! while ids wait ([`Directory::wait`]). [`Directory::shown_order`] puts objects into the order in which a report shows
//! them.
//!
//! [`stakes_of`], [`honest_of`] and [`writers_of`] read the set-up lines: the stakes, which members are honest, and the
//! limit of writers. [`Directory::with_opening`] gives the names together with the objects with which epoch 0 opens, so
//! that ids and addresses are hashed once.
//!
//! [`make`] turns the words of a `tx` line into a signed transaction: a [`Directory`] says which objects the words
//! name, the digests of versions are those that are held ([`HeldDigests`]), and the seal is the sender's
//! ([`MakesSeals`]). A mark after a version or the sender spoils the digest or the seal.
#![tactic(auto)]

mod adding;
mod addresses;
mod certificate;
mod certs;
mod collecting;
mod commands;
mod directory;
mod drawn;
mod ends;
mod ends_law;
mod entries;
mod epochs;
mod false_votes;
mod formed;
mod forming;
mod holds;
mod inputs;
mod line;
mod lines_law;
mod looks;
mod making;
mod making_law;
mod names_law;
mod opening;
mod order;
mod ordered;
mod printed;
mod rows;
mod runs;
mod said;
mod said_law;
mod shared_bytes;
mod shared_tx;
mod shown;
mod shows;
mod stated;
mod votes;
mod words;

pub use cert_rules::Collected;
pub use certificate::FormedCertificate;
pub use certs::{cert_lines, collected_lines, final_text, is_whole};
pub use directory::Directory;
pub use ends_law::an_epoch_ends_by_its_ends;
pub use entries::add_entry_lines;
pub use epochs::{ack_text, close_text, end_text, turn_lines};
pub use false_votes::{false_origins, false_vote_line, false_vote_lines};
pub use formed::FormedCertificates;
pub use forming::{certify, vote_seal};
pub use holds::hold_text;
pub use inputs::{HeldDigests, spoiled_if};
pub use line::TxLine;
pub use lines_law::lines_in_a_world;
pub use making::{MakeRefusal, MakesSeals, make};
pub use making_law::made_in_a_world;
pub use names_law::names_of_a_world;
pub use opening::{honest_of, stakes_of, writers_of};
pub use order::ConsensusLog;
pub use ordered::{order_and_rise, order_end_line, order_line, sealed_end};
pub use rows::MadeTx;
pub use runs::{one_line, run_lines};
pub use said::StatementLog;
pub use said_law::said_in_a_world;
pub use shared_tx::SharedTx;
pub use shows::{object_line, shown_lines};
pub use votes::vote_text;
pub use words::{object_text, tx_text};
