//! Tests of the scan of inodes, of rows by number, of the faults between inodes, and of recovery; of whole scripts, with the
//! calls that they make, their lines, the texts that they print, and the streams that they read and write; of what is told of
//! an image; and of the words of the command line. They stand here since a crate that has tests is proved twice, once with
//! them and once without.
#![tactic(auto)]

#[cfg(test)]
mod broken_streams;
#[cfg(test)]
mod by_hand;
#[cfg(test)]
mod checking;
#[cfg(test)]
mod cleaning;
#[cfg(test)]
mod contents;
#[cfg(test)]
mod damage;
#[cfg(test)]
mod faults;
#[cfg(test)]
mod first_reasons;
#[cfg(test)]
mod growing;
#[cfg(test)]
mod images;
#[cfg(test)]
mod json;
#[cfg(test)]
mod line;
#[cfg(test)]
mod meeting;
#[cfg(test)]
mod mounting;
#[cfg(test)]
mod own_pool;
#[cfg(test)]
mod recovery;
#[cfg(test)]
mod rows;
#[cfg(test)]
mod scan;
#[cfg(test)]
mod script;
#[cfg(test)]
mod small;
#[cfg(test)]
mod stream;
#[cfg(test)]
mod text;
#[cfg(test)]
mod turns;
#[cfg(test)]
mod watched;
#[cfg(test)]
mod words;
#[cfg(test)]
mod written;
