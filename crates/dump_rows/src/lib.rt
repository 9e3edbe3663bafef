//! The worked rows of the sources of snapshots: dumps, whole and in pieces, and the load database. They are on the worked example,
//! on full arrays, and on readers and writers that fail.
#![tactic(auto)]

#[cfg(test)]
mod database;
#[cfg(test)]
mod failing;
#[cfg(test)]
mod feeding;
#[cfg(test)]
mod fixtures;
#[cfg(test)]
mod full;
#[cfg(test)]
mod made;
#[cfg(test)]
mod parts;
#[cfg(test)]
mod rows;
#[cfg(test)]
mod slow_reader;
#[cfg(test)]
mod texts;
