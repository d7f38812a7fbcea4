//! Tests of what no program shows of the rules: tables, books, stores, cuts, leftovers, followers, and calls
//! for clients.
//!
//! Tests of the crates at the base, of what neither a case of `conformance/` nor a row of `wire_rows` can show: lists, report
//! lines that no schedule gives, the outside in memory and the journal file; which objects fit, what of the natives no block
//! can show, and plans, boards, decks and crews, on one thread and on several.
#![tactic(auto)]

#[cfg(test)]
mod boards;
#[cfg(test)]
mod books;
#[cfg(test)]
mod clients;
#[cfg(test)]
mod crashes;
#[cfg(test)]
mod decks;
#[cfg(test)]
mod fits;
#[cfg(test)]
mod followers;
#[cfg(test)]
mod jobs;
#[cfg(test)]
mod journal_files;
#[cfg(test)]
mod leftovers;
#[cfg(test)]
mod lines;
#[cfg(test)]
mod lists;
#[cfg(test)]
mod named;
#[cfg(test)]
mod natives;
#[cfg(test)]
mod objects;
#[cfg(test)]
mod outsides;
#[cfg(test)]
mod plans;
#[cfg(test)]
mod pools;
#[cfg(test)]
mod same;
#[cfg(test)]
mod sequences;
#[cfg(test)]
mod stores;
#[cfg(test)]
mod texts;
