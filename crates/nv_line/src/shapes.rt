//! The values that the words behind a command's name write: all of a command's words first, and then single ones.

ghost use Rattle.std.specs.Prelude.{◌≡◌, ℕ, List, map, IfOk, option_map};
ghost use Rattle.nv_line.specs.Request.{Request, Stop};
ghost use Rattle.nv_line.specs.Reading.{numbers_of, value_of, moment_of, keep_of, request_by};
ghost use Rattle.nv_line.specs.Shapes.{End, UpTo, Path, fuse_by};
ghost use Rattle.nv_line.specs.Table.{one_number, two_numbers, three_numbers, number_and_numbers, one_path, path_and_two_numbers};
ghost use Rattle.nv_line.specs.Table.{cpu_and_path, cpu_and_two_paths, cpu_path_and_number, write_words, attribute_words, stop_words, stop_of, most_32};

use crate::numeral::read_number;
use nv_region::{Fuse, Keep};
use nv_super::MOST_FILE_BYTES;
use std::alloc::{AllocError, Global};

#[tactic(auto, unfolding(crate::specs::Reading::request_by))]
pub(crate) fn no_words(words: &[&[u8]]) -> Option<()>
    ensures { (request : Request) → option_map (λ _. request) result ≡ request_by End request (map (λ word. word.now) words.now) }
{
    let [] = words else { return None };
    Some(())
}

#[tactic(auto, unfolding(crate::specs::Reading::request_by))]
pub(crate) fn one_number(words: &[&[u8]]) -> Option<u64>
    ensures { (make : ℕ → Request) → option_map make result ≡ request_by one_number make (map (λ word. word.now) words.now) }
{
    let [word] = words else { return None };
    read_number(word)
}

#[tactic(auto, unfolding(crate::specs::Reading::request_by))]
pub(crate) fn two_numbers(words: &[&[u8]]) -> Option<(u64, u64)>
    ensures { (make : ℕ → ℕ → Request) → option_map (λ v. make v.0 v.1) result ≡ request_by two_numbers make (map (λ word. word.now) words.now) }
{
    let [first, second] = words else {
        return None;
    };
    Some((read_number(first)?, read_number(second)?))
}

#[tactic(auto, unfolding(crate::specs::Reading::request_by))]
pub(crate) fn three_numbers(words: &[&[u8]]) -> Option<(u64, u64, u64)>
    ensures { (make : ℕ → ℕ → ℕ → Request) → option_map (λ v. make v.0 v.1 v.2) result ≡ request_by three_numbers make (map (λ word. word.now) words.now) }
{
    let [first, second, third] = words else {
        return None;
    };
    Some((
        read_number(first)?,
        read_number(second)?,
        read_number(third)?,
    ))
}

/// The error is a refused growth of the list of numbers.
#[tactic(auto, unfolding(crate::specs::Reading::request_by))]
pub(crate) fn number_and_numbers(
    alloc: Global,
    words: &[&[u8]],
) -> Result<Option<(u64, Vec<u64>)>, AllocError>
    ensures { IfOk result (λ found. (make : ℕ → List ℕ → Request) → option_map (λ v. make v.0 v.1.items) found ≡ request_by number_and_numbers make (map (λ word. word.now) words.now)) }
{
    let [first, others @ ..] = words else {
        return Ok(None);
    };
    let Some(number) = read_number(first) else {
        return Ok(None);
    };
    match numbers(alloc, others)? {
        Some(numbers) => Ok(Some((number, numbers))),
        None => Ok(None),
    }
}

#[tactic(auto, unfolding(crate::specs::Reading::request_by))]
pub(crate) fn one_path<'a>(words: &[&'a [u8]]) -> Option<&'a [u8]>
    ensures { (make : List ℕ → Request) → option_map (λ path. make path.now) result ≡ request_by one_path make (map (λ word. word.now) words.now) }
{
    let [path] = words else { return None };
    if path.is_empty() {
        return None;
    }
    Some(path)
}

#[tactic(auto, unfolding(crate::specs::Reading::request_by))]
pub(crate) fn path_and_two_numbers<'a>(words: &[&'a [u8]]) -> Option<(&'a [u8], u64, u64)>
    ensures { (make : List ℕ → ℕ → ℕ → Request) → option_map (λ v. make v.0.now v.1 v.2) result ≡ request_by path_and_two_numbers make (map (λ word. word.now) words.now) }
{
    let [name, first, second] = words else {
        return None;
    };
    Some((path(name)?, read_number(first)?, read_number(second)?))
}

#[tactic(auto, unfolding(crate::specs::Reading::request_by))]
pub(crate) fn cpu_and_path<'a>(words: &[&'a [u8]]) -> Option<(u64, &'a [u8])>
    ensures { (make : ℕ → List ℕ → Request) → option_map (λ v. make v.0 v.1.now) result ≡ request_by cpu_and_path make (map (λ word. word.now) words.now) }
{
    let [cpu, name] = words else {
        return None;
    };
    Some((read_number(cpu)?, path(name)?))
}

#[tactic(auto, unfolding(crate::specs::Reading::request_by))]
pub(crate) fn cpu_and_two_paths<'a>(words: &[&'a [u8]]) -> Option<(u64, &'a [u8], &'a [u8])>
    ensures { (make : ℕ → List ℕ → List ℕ → Request) → option_map (λ v. make v.0 v.1.now v.2.now) result ≡ request_by cpu_and_two_paths make (map (λ word. word.now) words.now) }
{
    let [cpu, name, other] = words else {
        return None;
    };
    Some((read_number(cpu)?, path(name)?, path(other)?))
}

#[tactic(auto, unfolding(crate::specs::Reading::request_by))]
pub(crate) fn cpu_path_and_number<'a>(words: &[&'a [u8]]) -> Option<(u64, &'a [u8], u64)>
    ensures { (make : ℕ → List ℕ → ℕ → Request) → option_map (λ v. make v.0 v.1.now v.2) result ≡ request_by cpu_path_and_number make (map (λ word. word.now) words.now) }
{
    let [cpu, name, number] = words else {
        return None;
    };
    Some((read_number(cpu)?, path(name)?, read_number(number)?))
}

/// The words of a write: a CPU, a path, an offset, a count and a byte.
#[tactic(auto, unfolding(crate::specs::Reading::request_by))]
pub(crate) fn write_words<'a>(words: &[&'a [u8]]) -> Option<(u64, &'a [u8], u64, u64, u8)>
    ensures { (make : ℕ → List ℕ → ℕ → ℕ → ℕ → Request) → option_map (λ v. make v.0 v.1.now v.2 v.3 v.4) result ≡ request_by write_words make (map (λ word. word.now) words.now) }
{
    let [cpu, name, offset, count, byte] = words else {
        return None;
    };
    Some((
        read_number(cpu)?,
        path(name)?,
        read_number(offset)?,
        number_up_to(MOST_FILE_BYTES, count)?,
        number_up_to(255, byte)? as u8,
    ))
}

/// The words of attributes: a CPU, a path, a mode, an owner and a group.
#[tactic(auto, unfolding(crate::specs::Reading::request_by))]
pub(crate) fn attribute_words<'a>(words: &[&'a [u8]]) -> Option<(u64, &'a [u8], u32, u32, u32)>
    ensures { (make : ℕ → List ℕ → ℕ → ℕ → ℕ → Request) → option_map (λ v. make v.0 v.1.now v.2 v.3 v.4) result ≡ request_by attribute_words make (map (λ word. word.now) words.now) }
{
    let [cpu, name, mode, owner, group] = words else {
        return None;
    };
    Some((
        read_number(cpu)?,
        path(name)?,
        small_number(mode)?,
        small_number(owner)?,
        small_number(group)?,
    ))
}

/// The words of a stop: when it comes, and what it keeps.
#[tactic(auto, unfolding(crate::specs::Reading::request_by))]
pub(crate) fn stop_words(words: &[&[u8]]) -> Option<(Fuse, Keep)>
    ensures { option_map (λ v. Stop v.0 v.1) result ≡ request_by stop_words stop_of (map (λ word. word.now) words.now) }
{
    let [moment, number, kept] = words else {
        return None;
    };
    Some((fuse(moment, read_number(number)?)?, keep(kept)?))
}

/// The bytes of a path.
pub(crate) fn path<'a>(word: &'a [u8]) -> Option<&'a [u8]>
    ensures { option_map (λ path. path.now) result ≡ value_of Path word.now }
{
    if word.is_empty() { None } else { Some(word) }
}

/// A number of at most this.
pub(crate) fn number_up_to(most: u64, word: &[u8]) -> Option<u64>
    ensures { result ≡ value_of (UpTo most) word.now }
{
    let number = read_number(word)?;
    if number <= most { Some(number) } else { None }
}

/// A number of 32 bits.
pub(crate) fn small_number(word: &[u8]) -> Option<u32>
    ensures { result ≡ value_of (UpTo most_32) word.now }
{
    let number = number_up_to(4294967295, word)?;
    Some(number as u32)
}

#[tactic(auto, unfolding(crate::specs::Reading::moment_of))]
pub(crate) fn fuse(moment: &[u8], number: u64) -> Option<Fuse>
    ensures { result ≡ option_map (λ m. fuse_by m number) (moment_of moment.now) }
{
    if moment == b"after".as_slice() {
        Some(Fuse::After(number))
    } else if moment == b"at".as_slice() {
        Some(Fuse::At(number))
    } else {
        None
    }
}

#[tactic(auto, unfolding(crate::specs::Reading::keep_of))]
pub(crate) fn keep(word: &[u8]) -> Option<Keep>
    ensures { result ≡ keep_of word.now }
{
    if word == b"none".as_slice() {
        Some(Keep::None)
    } else if word == b"all".as_slice() {
        Some(Keep::All)
    } else if word == b"alternate".as_slice() {
        Some(Keep::Alternate)
    } else {
        None
    }
}

/// The numbers that the words write, if each writes one.
pub(crate) fn numbers(alloc: Global, words: &[&[u8]]) -> Result<Option<Vec<u64>>, AllocError>
    ensures { IfOk result (λ found. option_map (λ numbers. numbers.items) found ≡ numbers_of (map (λ word. word.now) words.now)) }
{
    let mut numbers = Vec::new(alloc);
    for word in words {
        match read_number(word) {
            Some(number) => numbers.push(number)?,
            None => return Ok(None),
        }
    }
    Ok(Some(numbers))
}
