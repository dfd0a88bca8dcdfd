//! The lines of a text, one after another.

ghost use Rattle.std.specs.Prelude.{◌≡◌, ◌+◌, ◌-◌, ◌^◌, ◌<◌, ◌≤◌, ◌⊎◌, ◌++◌, ◌∷◌, [], true, false, codes, get_or, length, map, IfOk, IfErr, IfNone, IfSome, OnOk};
ghost use Rattle.std.specs.Fn.{FnOnceReturnsAt};
ghost use Rattle.std.specs.List.{list_all};
ghost use Rattle.certificate.specs.declared.faults.CertFault.TheVariants.{Line, OutOfMemory};
ghost use Rattle.certificate.specs.declared.faults.LineFault.TheVariants.{BadNumber};
ghost use Rattle.definitions.specs.Listed.{listed};
ghost use Rattle.certificate.specs.Decoded.{numbers_of, read_pair, read_cell};
ghost use Rattle.definitions.specs.Texts.{number_of};
ghost use Rattle.certificate.specs.Faults.{cell_key_of, entry_fault, field_fault, fixed_fault, is_cell, is_decimal, is_pair, pair_key_of, title_fault, words};
ghost use Rattle.certificate.specs.Parsing.{Cuts, FailsFirst, Lacks, outcome};
ghost use Rattle.certificate.specs.Reading.{FitsCount, ReadsLine, StaysWithin, TakesEntries, TakesLine};
ghost use Rattle.certificate.specs.Spelling.{most_nodes, most_pairs};
ghost use Rattle.certificate.specs.Values.{is_above as above};

use crate::bounds::{MOST_PAIRS, key_of_pair, sets_below_all};
use crate::faults::{CertFault, LineFault};
use crate::lines::{behind_name, cell_line, end_line, number_line, pair_line, title_line};
use crate::words::{cut, number};
use order_model::{ListedCell, VarIx};
use std::alloc::Global;

pub(crate) fn add<T: Drop>(items: &mut Vec<T>, item: T) -> Result<(), CertFault>
    ensures added { OnOk result (items.new.items ≡ items.old.items ++ item ∷ []) }
    ensures memory { IfErr result (λ fault. fault ≡ OutOfMemory) }
{
    match items.push(item) {
        Ok(()) => Ok(()),
        Err(_) => Err(CertFault::OutOfMemory),
    }
}

/// Appends the number that `word` states. The error is `BadNumber`, at line `line`, or
/// `OutOfMemory`.
fn push_number(numbers: &mut Vec<u32>, word: &[u8], most: u32, line: usize) -> Result<(), CertFault>
    requires { most ≤ most_nodes }
    ensures added { OnOk result (numbers.new.items ≡ numbers.old.items ++ number_of word.now ∷ []) }
    ensures passes { OnOk result (is_decimal 0 most word.now ≡ true) }
    ensures refused { IfErr result
        (λ fault. (fault ≡ OutOfMemory) ⊎
        ((fault ≡ Line line BadNumber) × (is_decimal 0 most word.now ≡ false))) }
{
    let Some(value) = number(word, 0, most) else {
        return Err(CertFault::Line(line, LineFault::BadNumber));
    };
    add(numbers, value)
}

/// The numbers that the words of `text` state, at line `line`.
fn numbers_in(alloc: Global, text: &[u8], most: u32, line: usize) -> Result<Vec<u32>, CertFault>
    requires { most ≤ most_nodes }
    ensures numbers { IfOk result (λ v. v.items ≡ map number_of (words text.now)) }
    ensures passes { IfOk result (λ _. list_all (is_decimal 0 most) (words text.now) ≡ true) }
    ensures refused { IfErr result
        (λ fault. (fault ≡ OutOfMemory) ⊎
        ((fault ≡ Line line BadNumber)
        × (list_all (is_decimal 0 most) (words text.now) ≡ false))) }
{
    let mut numbers = Vec::new(alloc);
    let mut rest = text;
    while let Some((word, more)) = cut(rest, b' ') {
        push_number(&mut numbers, word, most, line)?;
        rest = more;
    }
    push_number(&mut numbers, rest, most, line)?;
    Ok(numbers)
}

#[derive(Drop)]
pub(crate) struct Lines<'a> {
    rest: &'a [u8],
    number: usize,
}

impl<'a> Lines<'a> {
    pub(crate) fn of(text: &'a [u8]) -> Lines<'a>
        ensures rest { result.rest.now ≡ text.now }
        ensures number { result.number ≡ 1 }
    {
        Lines {
            rest: text,
            number: 1,
        }
    }

    /// Takes the next line, without its line feed, if there is one with a line feed.
    fn next(&mut self) -> Option<&'a [u8]>
        requires { FitsCount self.old }
        ensures line { IfSome result (λ line. Cuts 10 self.old.rest.now line.now self.new.rest.now) }
        ensures number { IfSome result (λ _. self.new.number ≡ self.old.number + 1) }
        ensures none { IfNone result (Lacks 10 self.old.rest.now) }
        ensures bound { StaysWithin self.old self.new }
    {
        let (line, rest) = cut(self.rest, b'\n')?;
        self.rest = rest;
        self.number += 1;
        Some(line)
    }

    /// What `read` returns for the next line; a fault of `read` gets the line's number. If no line
    /// feed is left, the error is `MissingLine` with the number that the line would have.
    fn take<V, F: FnOnce(&[u8]) -> Result<V, LineFault>>(&mut self, read: F) -> Result<V, CertFault>
        requires small { FitsCount self.old }
        requires readable { F.IsAlwaysCallable read }
        ensures line { ReadsLine (FnOnceReturnsAt F.FnOnce read) self.old self.new result }
        ensures bound { StaysWithin self.old self.new }
    {
        let number = self.number;
        let Some(line) = self.next() else {
            return Err(CertFault::Line(number, LineFault::MissingLine));
        };
        match read(line) {
            Ok(value) => Ok(value),
            Err(fault) => Err(CertFault::Line(number, fault)),
        }
    }

    /// Takes the next line, `name` and a number from `least` to `most`, and returns the number.
    pub(crate) fn number(&mut self, name: &[u8], least: u32, most: u32) -> Result<u32, CertFault>
        requires small { FitsCount self.old }
        requires bounds { most ≤ most_nodes }
        ensures line { TakesLine (field_fault name.now 1 least most) self.old self.new
            (λ ws value. value ≡ number_of (get_or ws 1 [])) result }
        ensures within { IfOk result (λ value. (least ≤ value) × (value ≤ most)) }
        ensures bound { StaysWithin self.old self.new }
    {
        self.take(|line| number_line(line, name, least, most))
    }

    /// Takes the first line of a certificate, and returns its format.
    pub(crate) fn title(&mut self) -> Result<u8, CertFault>
        requires { FitsCount self.old }
        ensures line { TakesLine title_fault self.old self.new
            (λ ws format. format ≡ number_of (get_or ws 1 [])) result }
        ensures bound { StaysWithin self.old self.new }
    {
        self.take(title_line)
    }

    /// Takes the last line, `end`. The error is `TrailingText`, at the line after, if any text
    /// follows.
    pub(crate) fn end(&mut self) -> Result<(), CertFault>
        requires { FitsCount self.old }
        ensures passed { OnOk result
            (outcome self.old.number (fixed_fault (codes "end" ∷ []) ∷ []) self.old.rest.now ≡ []) }
        ensures failed { IfErr result
            (FailsFirst (outcome self.old.number (fixed_fault (codes "end" ∷ []) ∷ [])
            self.old.rest.now)) }
    {
        self.take(end_line)?;
        if !self.rest.is_empty() {
            return Err(CertFault::Line(self.number, LineFault::TrailingText));
        }
        Ok(())
    }

    /// Takes the next line, `name` and then `count` numbers of at most `most`.
    pub(crate) fn numbers(
        &mut self,
        alloc: Global,
        name: &[u8],
        count: usize,
        most: u32,
    ) -> Result<Vec<u32>, CertFault>
        requires small { FitsCount self.old }
        requires some { 1 ≤ count }
        requires bounds { most ≤ most_nodes }
        ensures line { TakesLine (field_fault name.now count 0 most) self.old self.new
            (λ ws numbers. numbers.items ≡ numbers_of ws) result }
        ensures bound { StaysWithin self.old self.new }
    {
        let number = self.number;
        let Some(line) = self.next() else {
            return Err(CertFault::Line(number, LineFault::MissingLine));
        };
        let Some(digits) = behind_name(line, name, count) else {
            return Err(CertFault::Line(number, LineFault::BadLine));
        };
        numbers_in(alloc, digits, most, number)
    }

    /// Takes the line with the number of pairs, and a line for each.
    pub(crate) fn pairs(&mut self, alloc: Global, n: u8) -> Result<Vec<(VarIx, VarIx)>, CertFault>
        requires small { FitsCount self.old }
        requires some { 1 ≤ n }
        requires few { n ≤ 16 }
        ensures section { TakesEntries (codes "pairs") most_pairs (is_pair n) pair_key_of read_pair
            (λ v. v.items) self.old self.new result }
        ensures bound { StaysWithin self.old self.new }
    {
        let count = self.number(b"pairs", 0, MOST_PAIRS as u32)?;
        let mut pairs = Vec::new(alloc);
        let mut last = None;
        while pairs.len() < count as usize {
            let pair = self.take(|line| pair_line(line, n, last))?;
            last = Some(key_of_pair(pair.0, pair.1));
            add(&mut pairs, pair)?;
        }
        Ok(pairs)
    }

    /// Takes the line with the number of listed sets, and a line for each.
    pub(crate) fn cells(&mut self, alloc: Global, n: u8) -> Result<Vec<ListedCell>, CertFault>
        requires small { FitsCount self.old }
        requires few { n ≤ 16 }
        ensures section { TakesEntries (codes "cells") (2 ^ n - 1) (is_cell n) cell_key_of read_cell
            (λ v. map listed v.items) self.old self.new result }
        ensures bound { StaysWithin self.old self.new }
    {
        let count = self.number(b"cells", 0, sets_below_all(n))?;
        let mut cells = Vec::new(alloc);
        let mut last = None;
        while cells.len() < count as usize {
            let cell = self.take(|line| cell_line(line, n, last))?;
            last = Some(u32::from(cell.mask));
            add(&mut cells, cell)?;
        }
        Ok(cells)
    }
}
