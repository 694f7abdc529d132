//! What is left of a line, read from left to right.

ghost use Rattle.std.specs.Prelude.{◌≡◌, ◌+◌, ◌≤◌, length, take, IfOk, IfSome};
ghost use Rattle.drm_text.specs.Reading.{Reads};
ghost use Rattle.drm_trace.specs.Rest.{address_at, address_behind, behind, behind_spaces, end_at, fault_next, fraction_at, fraction_of, mark_at, number_at, number_behind, pair_behind, text_before, text_between, without_prefix};

use crate::search::{
    begins_with, count_digits, count_hex, count_spaces, digits_value, place_of, value_of_hex,
};
use drm_text::{Fault, TextFault, read_number};
use std::marker::Model;

/// What is left of a line.
#[derive(Drop)]
pub(crate) struct Rest<'a> {
    line: u32,
    at: usize,
    bytes: &'a [u8],
}

impl<'a> Model for Rest<'a> {
    ghost use Rattle.std.specs.Prelude.{◌+◌, ◌≤◌, length};
    ghost use Rattle.drm_trace.specs.Rest.{Rest};

    ghost Value = { Rest };

    ghost view = { λ r. record { line = r.line; at = r.at; bytes = r.bytes.now } };

    ghost invariant = { λ r. r.at + length r.bytes.now ≤ 1048576 };
}

// The nanoseconds that digits behind the point of a time tell: of six as microseconds, of nine as they are.
fn fraction(digits: &[u8]) -> Option<u64>
    ensures value { result ≡ fraction_of digits.now }
    ensures small { IfSome result (λ n. n ≤ 999999999) }
{
    match digits.len() {
        6 => Some(digits_value(digits, 999_999)? * 1000),
        9 => digits_value(digits, 999_999_999),
        _ => None,
    }
}

impl<'a> Rest<'a> {
    /// Takes these bytes of a line, of which so many lie before.
    pub(crate) fn new(line: u32, at: usize, bytes: &'a [u8]) -> Rest<'a>
        requires { at + length bytes.now ≤ 1048576 }
        ensures { result ≡ record { line = line; at = at; bytes = bytes.now } }
    {
        Rest { line, at, bytes }
    }

    // A fault of the next byte.
    fn fault(&self, what: TextFault) -> Fault
        ensures { result ≡ fault_next self.now what }
    {
        Fault::Text {
            line: self.line,
            column: self.at as u32 + 1,
            what,
        }
    }

    // Passes some bytes.
    fn pass(&mut self, count: usize)
        requires { count ≤ length self.old.bytes }
        ensures { self.new ≡ behind count self.old }
    {
        let (_, rest) = self.bytes.split_at(count);
        self.at += count;
        self.bytes = rest;
    }

    // Cuts some bytes off.
    fn cut(&mut self, count: usize) -> &'a [u8]
        requires { count ≤ length self.old.bytes }
        ensures front { result.now ≡ take count self.old.bytes }
        ensures rest { self.new ≡ behind count self.old }
    {
        let (front, rest) = self.bytes.split_at(count);
        self.at += count;
        self.bytes = rest;
        front
    }

    /// Passes the spaces that stand next.
    pub(crate) fn pass_spaces(&mut self)
        ensures { self.new ≡ behind_spaces self.old }
    {
        let count = count_spaces(self.bytes);
        self.pass(count);
    }

    /// Passes a mark, which has to stand next.
    #[tactic(auto, unfolding(crate::specs::Rest::mark_at))]
    pub(crate) fn mark(&mut self, mark: &[u8]) -> Result<(), Fault>
        ensures { Reads (λ _. self.new) result (mark_at mark.now self.old) }
    {
        if !begins_with(self.bytes, mark) {
            return Err(self.fault(TextFault::Word));
        }
        self.pass(mark.len());
        Ok(())
    }

    /// Reads a number of at most `most`: all digits that stand next.
    #[tactic(auto, unfolding(crate::specs::Rest::number_at))]
    pub(crate) fn number(&mut self, most: u64) -> Result<u64, Fault>
        ensures value { Reads (λ n. (n, self.new)) result (number_at most self.old) }
        ensures small { IfOk result (λ n. n ≤ most) }
    {
        let fault = self.fault(TextFault::Number);
        let count = count_digits(self.bytes);
        let digits = self.cut(count);
        let number = read_number(digits, most).ok_or(fault)?;
        Ok(number)
    }

    /// Reads the nanoseconds behind the point of a time, which six or nine digits tell.
    #[tactic(auto, unfolding(crate::specs::Rest::fraction_at))]
    pub(crate) fn fraction(&mut self) -> Result<u64, Fault>
        ensures value { Reads (λ n. (n, self.new)) result (fraction_at self.old) }
        ensures small { IfOk result (λ n. n ≤ 999999999) }
    {
        let fault = self.fault(TextFault::Number);
        let count = count_digits(self.bytes);
        let digits = self.cut(count);
        let nanoseconds = fraction(digits).ok_or(fault)?;
        Ok(nanoseconds)
    }

    // Passes 0x, where that stands next.
    fn pass_prefix(&mut self)
        ensures { self.new ≡ without_prefix self.old }
    {
        if begins_with(self.bytes, b"0x") {
            self.pass(2);
        }
    }

    // An address: all hexadecimal digits that stand next.
    #[tactic(auto, unfolding(crate::specs::Rest::address_at))]
    fn address(&mut self) -> Result<u64, Fault>
        ensures { Reads (λ n. (n, self.new)) result (address_at self.old) }
    {
        let fault = self.fault(TextFault::Number);
        let count = count_hex(self.bytes);
        let digits = self.cut(count);
        let address = value_of_hex(digits).ok_or(fault)?;
        Ok(address)
    }

    // The bytes before a mark, which is passed too.
    #[tactic(auto, unfolding(crate::specs::Rest::text_before))]
    fn text_before(&mut self, mark: &[u8]) -> Result<&'a [u8], Fault>
        ensures { Reads (λ text. (text.now, self.new)) result (text_before mark.now self.old) }
    {
        let fault = self.fault(TextFault::Word);
        let at = place_of(self.bytes, mark).ok_or(fault)?;
        let text = self.cut(at);
        self.pass(mark.len());
        Ok(text)
    }

    /// Asks that nothing is left.
    #[tactic(auto, unfolding(crate::specs::Rest::end_at))]
    pub(crate) fn end(&self) -> Result<(), Fault>
        ensures { Reads (λ _. tt) result (end_at self.now) }
    {
        if self.bytes.is_empty() {
            return Ok(());
        }
        Err(self.fault(TextFault::Word))
    }

    /// Reads a number of 64 bits behind a mark.
    #[tactic(auto, unfolding(crate::specs::Rest::number_behind))]
    pub(crate) fn number_behind(&mut self, mark: &[u8]) -> Result<u64, Fault>
        ensures { Reads (λ n. (n, self.new)) result (number_behind mark.now self.old) }
    {
        self.mark(mark)?;
        let number = self.number(u64::MAX)?;
        Ok(number)
    }

    /// Reads an address behind a mark, with or without 0x.
    #[tactic(auto, unfolding(crate::specs::Rest::address_behind))]
    pub(crate) fn address_behind(&mut self, mark: &[u8]) -> Result<u64, Fault>
        ensures { Reads (λ n. (n, self.new)) result (address_behind mark.now self.old) }
    {
        self.mark(mark)?;
        self.pass_prefix();
        let address = self.address()?;
        Ok(address)
    }

    /// Reads the bytes between two marks.
    #[tactic(auto, unfolding(crate::specs::Rest::text_between))]
    pub(crate) fn text_between(&mut self, first: &[u8], second: &[u8]) -> Result<&'a [u8], Fault>
        ensures { Reads (λ text. (text.now, self.new)) result (text_between first.now second.now self.old) }
    {
        self.mark(first)?;
        let text = self.text_before(second)?;
        Ok(text)
    }

    /// Reads a context and a number behind a mark.
    #[tactic(auto, unfolding(crate::specs::Rest::pair_behind))]
    pub(crate) fn pair_behind(&mut self, mark: &[u8]) -> Result<(u64, u64), Fault>
        ensures { Reads (λ pair. (pair, self.new)) result (pair_behind mark.now self.old) }
    {
        let context = self.number_behind(mark)?;
        let number = self.number_behind(b":")?;
        Ok((context, number))
    }
}
