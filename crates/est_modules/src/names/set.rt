//! Sets of names, and sets of their numbers.
ghost use Rattle.std.specs.Prelude.{◌≡◌, ◌<◌, ◌/◌, ◌%◌, ℕ, List, ◌&&◌, ◌||◌, ◌↔◌, true, false, not};
ghost use Rattle.std.specs.Prelude.{IfOk, IfSome, IsTrue, OnOk, length, map, nat_eq, slice_index};
ghost use Rattle.std.specs.Str.{bytes_eq};
ghost use Rattle.est_kernel.specs.Bits.{bits};
ghost use Rattle.est_syntax.specs.Views.{renaming_view};
ghost use Rattle.est_modules.specs.NameSets.{has};
ghost use Rattle.est_modules.specs.NamedNumbers.{Adds, AreNumbers, Tells};
ghost use Rattle.est_modules.specs.NameTables.{IsTable, is_numbered};
ghost use Rattle.est_modules.specs.NumberSets.{numbers_of};
ghost use Rattle.est_modules.specs.Renamings.{is_renamed};
ghost use Rattle.est_modules.specs.Visible.{stands_in};

use crate::names::table::NameTable;
use est_kernel::mask;
use est_syntax::tree::Renaming;
use est_text::identifier::Identifier;
use std::alloc::{AllocError, Global};
use std::collections::BTreeSet;

/// A set of names, in their order, so that a look-up among n of them takes as many steps as n has
/// digits in binary, whatever names a text chooses.
#[derive(Drop)]
pub struct NameSet<'a> {
    names: BTreeSet<&'a [u8]>,
}

impl<'a> NameSet<'a> {
    /// A set of no names.
    pub fn new(alloc: Global) -> NameSet<'a>
        ensures { (s : List ℕ) → has result s ≡ false }
    {
        NameSet {
            names: BTreeSet::new(alloc),
        }
    }

    /// Whether the name is in the set.
    pub fn contains(&self, name: &Identifier) -> bool
        ensures { result ≡ has self.now name.now }
    {
        self.names.contains(name.as_bytes())
    }

    /// Puts a name into the set: whether it wasn't there.
    ///
    /// # Errors
    ///
    /// `AllocError` where memory is refused.
    pub fn insert(&mut self, name: &'a Identifier) -> Result<bool, AllocError>
        ensures added { IfOk result (λ added. added ≡ not (has self.old name.now)) }
        ensures has { OnOk result ((s : List ℕ) → has self.new s
            ≡ (has self.old s || bytes_eq name.now s)) }
    {
        Ok(self.names.insert(name.as_bytes())?)
    }
}

/// A set of numbers, one bit for each up to the largest. What is done with whole sets takes a step
/// for each 64 of these.
#[derive(Drop)]
pub struct NumberSet {
    words: Vec<u64>,
}

impl NumberSet {
    /// A set of no numbers.
    pub fn new(alloc: Global) -> NumberSet
        ensures { (i : ℕ) → numbers_of result i ≡ false }
    {
        NumberSet {
            words: Vec::new(alloc),
        }
    }

    /// The same numbers once more.
    ///
    /// # Errors
    ///
    /// `AllocError` where memory is refused.
    pub fn try_clone(&self, alloc: Global) -> Result<NumberSet, AllocError>
        ensures { IfOk result (λ copy. (i : ℕ) → numbers_of copy i ≡ numbers_of self.now i) }
    {
        Ok(NumberSet {
            words: Vec::from_slice(alloc, &self.words)?,
        })
    }

    /// The numbers of a word. After the last word there are none.
    fn word(&self, place: usize) -> u64
        ensures { result ≡ slice_index self.now.words.items place }
    {
        match self.words.get(place) {
            Some(word) => *word,
            None => 0,
        }
    }

    /// Whether the number is in the set.
    pub fn has(&self, number: usize) -> bool
        ensures { result ≡ numbers_of self.now number }
    {
        mask::has(self.word(number / 64), (number % 64) as u8)
    }

    /// Makes room for a word.
    fn make_room(&mut self, place: usize) -> Result<(), AllocError>
        requires { place < usize.MAX }
        ensures room { OnOk result (place < length self.new.words.items) }
        ensures words { OnOk result ((k : ℕ) → slice_index self.new.words.items k
            ≡ slice_index self.old.words.items k) }
    {
        if self.words.len() <= place {
            self.words.resize(place + 1, 0)?;
        }
        Ok(())
    }

    /// Puts in the numbers of a word.
    fn add_word(&mut self, place: usize, word: u64) -> Result<(), AllocError>
        requires { place < usize.MAX }
        ensures { OnOk result ((i : ℕ) → numbers_of self.new i ≡ (numbers_of self.old i
            || (nat_eq (i / 64) place && bits word (i % 64)))) }
    {
        self.make_room(place)?;
        self.words[place] = mask::union(self.word(place), word);
        Ok(())
    }

    /// Puts a number into the set.
    ///
    /// # Errors
    ///
    /// `AllocError` where memory is refused.
    pub fn insert(&mut self, number: usize) -> Result<(), AllocError>
        ensures { OnOk result ((i : ℕ) → numbers_of self.new i ≡ (numbers_of self.old i
            || nat_eq number i)) }
    {
        self.add_word(number / 64, mask::single((number % 64) as u8))
    }

    /// Puts in what is in the first of two other sets and not in the second.
    ///
    /// # Errors
    ///
    /// `AllocError` where memory is refused.
    pub fn add_difference(
        &mut self,
        first: &NumberSet,
        second: &NumberSet,
    ) -> Result<(), AllocError>
        ensures { OnOk result ((i : ℕ) → numbers_of self.new i ≡ (numbers_of self.old i
            || (numbers_of first.now i && not (numbers_of second.now i)))) }
    {
        for place in 0..first.words.len() {
            self.add_word(
                place,
                mask::difference(first.word(place), second.word(place)),
            )?;
        }
        Ok(())
    }

    /// Whether each number of the set is in one of two others.
    pub fn is_covered(&self, first: &NumberSet, second: &NumberSet) -> bool
        ensures { IsTrue result ↔ ((i : ℕ) → numbers_of self.now i ≡ true
            → (numbers_of first.now i || numbers_of second.now i) ≡ true) }
    {
        for place in 0..self.words.len() {
            let left = mask::difference(self.word(place), first.word(place));
            let rest = mask::difference(left, second.word(place));
            if rest != 0 {
                return false;
            }
        }
        true
    }
}

/// Puts in the number of a name if it has one, and says whether it has.
fn put_number(
    numbers: &mut NumberSet,
    table: &NameTable<'_>,
    name: &Identifier,
) -> Result<bool, AllocError>
    requires { IsTable table.now }
    ensures has { IfOk result (λ has. has ≡ is_numbered table.now name.now) }
    ensures adds { OnOk result (Adds table.now (bytes_eq name.now) numbers.old numbers.new) }
{
    match table.number(name) {
        Some(number) => {
            numbers.insert(number)?;
            Ok(true)
        }
        None => Ok(false),
    }
}

/// Puts in the number of a name, if it has one.
///
/// # Errors
///
/// `AllocError` where memory is refused.
pub fn put_name(
    numbers: &mut NumberSet,
    table: &NameTable<'_>,
    name: &Identifier,
) -> Result<(), AllocError>
    requires { IsTable table.now }
    ensures { OnOk result (Adds table.now (bytes_eq name.now) numbers.old numbers.new) }
{
    put_number(numbers, table, name)?;
    Ok(())
}

/// The same of each name of a list.
///
/// # Errors
///
/// `AllocError` where memory is refused.
pub fn put_names(
    numbers: &mut NumberSet,
    table: &NameTable<'_>,
    names: &[Identifier],
) -> Result<(), AllocError>
    requires { IsTable table.now }
    ensures { OnOk result (Adds table.now (stands_in names.now) numbers.old numbers.new) }
{
    for name in names {
        put_name(numbers, table, name)?;
    }
    Ok(())
}

/// The same of each name that a renaming has on the right.
///
/// # Errors
///
/// `AllocError` where memory is refused.
pub fn put_renamed(
    numbers: &mut NumberSet,
    table: &NameTable<'_>,
    renamings: &[Renaming],
) -> Result<(), AllocError>
    requires { IsTable table.now }
    ensures { OnOk result (Adds table.now (is_renamed (map renaming_view renamings.now))
        numbers.old numbers.new) }
{
    for renaming in renamings {
        put_name(numbers, table, &renaming.inner)?;
    }
    Ok(())
}

/// The numbers of the names of a list, of those that have one.
///
/// # Errors
///
/// `AllocError` where memory is refused.
pub fn numbers_among(
    alloc: Global,
    table: &NameTable<'_>,
    names: &[Identifier],
) -> Result<NumberSet, AllocError>
    requires { IsTable table.now }
    ensures { IfOk result (λ numbers. Tells table.now (stands_in names.now) numbers) }
{
    let mut numbers = NumberSet::new(alloc);
    put_names(&mut numbers, table, names)?;
    Ok(numbers)
}

/// The numbers of the names of a list, if each has one.
///
/// # Errors
///
/// `AllocError` where memory is refused.
pub fn numbers_of_all(
    alloc: Global,
    table: &NameTable<'_>,
    names: &[Identifier],
) -> Result<Option<NumberSet>, AllocError>
    requires { IsTable table.now }
    ensures { IfOk result (λ found. IfSome found (λ numbers. AreNumbers table.now names.now
        numbers)) }
{
    let mut numbers = NumberSet::new(alloc);
    for name in names {
        if !put_number(&mut numbers, table, name)? {
            return Ok(None);
        }
    }
    Ok(Some(numbers))
}
