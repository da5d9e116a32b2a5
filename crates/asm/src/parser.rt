//! The parser of a line: tokens, and what they are made into. Each method reads the tokens that its name says.

ghost use Rattle.std.specs.Prelude.{◌≡◌, ◌+◌, nat_le, [], ◌∷◌, Some, None, MatchOption, option_map, if◌then◌else◌};
ghost use Rattle.std.specs.List.{list_all, prefix_len};
ghost use Rattle.std.specs.Char.{digit_value};
ghost use Rattle.std.specs.Str.Parse.{digits_value};
ghost use Rattle.asm.specs.Radices.{radix_of, is_numeral};
ghost use Rattle.asm.specs.Lines.{begins_name, is_in_names, is_in_words, is_blank};
ghost use Rattle.asm.specs.Reading as reading;
ghost use Rattle.asm.specs.Reading.{register_named, is_name, number_of_token};
ghost use Rattle.asm.specs.Parsing.{tokens_ahead, numeral_value, integer_value, parsed_operand, parsed_address, target_value, Reads, Passes, StartsUnblank};

use crate::number::{Integer, Number};
use crate::radix::Radix;
use crate::refusal::LineError;
use insn::Reg;

/// The greatest number of characters in a name.
pub const MAX_NAME: usize = 32;

fn is_blank(c: u8) -> bool
    ensures { result ≡ is_blank c }
{
    c == b' ' || c == b'\t'
}

fn begins_name(c: u8) -> bool
    ensures { result ≡ begins_name c }
{
    c.is_ascii_alphabetic() || c == b'_'
}

fn is_in_names(c: u8) -> bool
    ensures { result ≡ is_in_names c }
{
    c.is_ascii_alphanumeric() || c == b'_'
}

fn is_in_words(c: u8) -> bool
    ensures { result ≡ is_in_words c }
{
    is_in_names(c) || c == b'.'
}

/// Returns whether all characters may be in a name.
fn are_in_names(text: &[u8]) -> bool
    ensures { result ≡ list_all is_in_names text.now }
{
    text.iter().all(|c| is_in_names(*c))
}

/// Returns whether a word is a name: a letter or `_`, then letters, digits or `_`, at most 32 in all.
#[tactic(auto, using(crate::proofs::Words::is_name_first))]
pub(crate) fn is_name(word: &[u8]) -> bool
    ensures { result ≡ is_name word.now }
{
    let Some((first, rest)) = word.split_first() else {
        return false;
    };
    if !begins_name(*first) {
        return false;
    }
    if !are_in_names(rest) {
        return false;
    }
    word.len() <= MAX_NAME
}

/// Returns the length of the word that `rest` begins with.
fn word_length(rest: &[u8]) -> usize
    ensures { result ≡ prefix_len is_in_words rest.now }
{
    rest.iter()
        .position(|c| !is_in_words(*c))
        .unwrap_or(rest.len())
}

/// Returns the register of a name.
fn register_named(name: &[u8]) -> Option<Reg>
    ensures { result ≡ register_named name.now }
{
    match name {
        b"r0" => Some(Reg::R0),
        b"r1" => Some(Reg::R1),
        b"r2" => Some(Reg::R2),
        b"r3" => Some(Reg::R3),
        b"r4" => Some(Reg::R4),
        b"r5" => Some(Reg::R5),
        b"r6" => Some(Reg::R6),
        b"r7" => Some(Reg::R7),
        b"r8" => Some(Reg::R8),
        b"r9" => Some(Reg::R9),
        b"r10" => Some(Reg::R10),
        _ => None,
    }
}

/// Returns whether all characters are digits.
fn are_digits(radix: Radix, digits: &[u8]) -> bool
    ensures { result ≡ list_all (λ d. nat_le (digit_value d + 1) (radix_of radix)) digits.now }
{
    let base = radix.value();
    digits.iter().all(|d| char::from(*d).is_digit(base))
}

/// Returns the number that one or more digits spell, or `None`.
fn number_of<'a>(radix: Radix, digits: &'a [u8]) -> Option<Number<'a>>
    ensures { option_map numeral_value result
        ≡ (if is_numeral (radix_of radix) digits.now then Some (digits_value (radix_of radix) digits.now) else None) }
{
    if digits.is_empty() {
        return None;
    }
    if !are_digits(radix, digits) {
        return None;
    }
    Some(Number { radix, digits })
}

/// Returns the number that a word writes: decimal digits, or `0x` and hexadecimal ones.
fn numbered<'a>(word: &'a [u8]) -> Option<Number<'a>>
    ensures { option_map numeral_value result ≡ number_of_token word.now }
{
    match word.strip_prefix(b"0x") {
        Some(digits) => number_of(Radix::Hexadecimal, digits),
        None => number_of(Radix::Decimal, word),
    }
}

/// The second operand of an instruction, as it is written.
#[derive(Clone, Copy)]
pub(crate) enum WrittenOperand<'a> {
    Reg(Reg),
    Integer(Integer<'a>),
}

/// Where a jump goes, as it is written.
#[derive(Clone, Copy)]
pub(crate) enum WrittenTarget<'a> {
    Label(&'a [u8]),
    Distance(Integer<'a>),
}

/// The address in a register, with a displacement, as it is written.
#[derive(Clone, Copy)]
pub(crate) struct WrittenAddress<'a> {
    pub(crate) base: Reg,
    pub(crate) displacement: Integer<'a>,
}

/// A parser of the rest of a line.
#[derive(Clone, Copy)]
pub(crate) struct Parser<'a> {
    rest: &'a [u8],
}

impl<'a> Parser<'a> {
    /// Returns a parser of a whole line.
    pub(crate) fn new(line: &'a [u8]) -> Parser<'a>
        ensures { tokens_ahead result ≡ reading.tokens_of line.now }
    {
        Parser { rest: line }
    }

    /// Drops the blanks before the next token.
    fn skip_blanks(&mut self)
        ensures same { tokens_ahead self.new ≡ tokens_ahead self.old }
        ensures begun { StartsUnblank self.new.rest.now }
    {
        while let [first, rest @ ..] = self.rest
            && is_blank(*first)
        {
            self.rest = rest;
        }
    }

    /// Returns the next token: a word, or one other character. A comment ends the line.
    #[tactic(auto, using(crate::proofs::Words::no_token, crate::proofs::Words::comment_token, crate::proofs::Words::first_length, crate::proofs::Words::next_token))]
    pub(crate) fn next(&mut self) -> Option<&'a [u8]>
        ensures { MatchOption result (tokens_ahead self.old ≡ []) (λ t. tokens_ahead self.old
            ≡ t.now ∷ tokens_ahead self.new) }
    {
        self.skip_blanks();
        let (first, _) = self.rest.split_first()?;
        if *first == b';' {
            return None;
        }
        let (token, rest) = self.rest.split_at(word_length(self.rest).max(1));
        self.rest = rest;
        Some(token)
    }

    /// Reads one sign.
    pub(crate) fn sign(&mut self, sign: &[u8]) -> Result<(), LineError>
        ensures { Passes (reading.sign sign.now) tokens_ahead self.old result self.new }
    {
        match self.next() {
            Some(token) if token == sign => Ok(()),
            _ => Err(LineError::Syntax),
        }
    }

    /// Reads the end of the line.
    pub(crate) fn end(&mut self) -> Result<(), LineError>
        ensures { Passes reading.end (λ p. tt) self.old result self.new }
    {
        match self.next() {
            None => Ok(()),
            Some(_) => Err(LineError::Syntax),
        }
    }

    /// Reads a register.
    pub(crate) fn register(&mut self) -> Result<Reg, LineError>
        ensures { Reads reading.register_in (λ r. r) self.old result self.new }
    {
        let word = self.next().ok_or(LineError::Syntax)?;
        register_named(word).ok_or(LineError::Syntax)
    }

    /// Reads a name.
    fn name(&mut self) -> Result<&'a [u8], LineError>
        ensures { Reads reading.name (λ name. name.now) self.old result self.new }
    {
        let word = self.next().ok_or(LineError::Syntax)?;
        if is_name(word) {
            Ok(word)
        } else {
            Err(LineError::Syntax)
        }
    }

    /// Reads a number without a sign.
    pub(crate) fn number(&mut self) -> Result<Number<'a>, LineError>
        ensures { Reads reading.number numeral_value self.old result self.new }
    {
        let word = self.next().ok_or(LineError::Syntax)?;
        numbered(word).ok_or(LineError::Syntax)
    }

    /// Reads a number after `+` or `-`.
    fn signed_number(&mut self) -> Result<Integer<'a>, LineError>
        ensures { Reads reading.signed_number integer_value self.old result self.new }
    {
        let is_negative = match self.next() {
            Some(b"+") => false,
            Some(b"-") => true,
            _ => return Err(LineError::Syntax),
        };
        let magnitude = self.number()?;
        Ok(Integer {
            is_negative,
            magnitude,
        })
    }

    /// Reads a number, which may have a `-` before it.
    pub(crate) fn integer(&mut self) -> Result<Integer<'a>, LineError>
        ensures { Reads reading.integer integer_value self.old result self.new }
    {
        let mut after = *self;
        let is_negative = after.sign(b"-").is_ok();
        if is_negative {
            *self = after;
        }
        let magnitude = self.number()?;
        Ok(Integer {
            is_negative,
            magnitude,
        })
    }

    /// Reads a register or a number.
    pub(crate) fn operand(&mut self) -> Result<WrittenOperand<'a>, LineError>
        ensures { Reads reading.operand_in parsed_operand self.old result self.new }
    {
        let mut after = *self;
        if let Ok(r) = after.register() {
            *self = after;
            return Ok(WrittenOperand::Reg(r));
        }
        Ok(WrittenOperand::Integer(self.integer()?))
    }

    /// Reads where a jump goes: a name, or a distance with its sign.
    pub(crate) fn target(&mut self) -> Result<WrittenTarget<'a>, LineError>
        ensures { Reads reading.jump_target target_value self.old result self.new }
    {
        let mut after = *self;
        if let Ok(name) = after.name() {
            *self = after;
            return Ok(WrittenTarget::Label(name));
        }
        Ok(WrittenTarget::Distance(self.signed_number()?))
    }

    /// Reads an address in brackets.
    pub(crate) fn address(&mut self) -> Result<WrittenAddress<'a>, LineError>
        ensures { Reads reading.address parsed_address self.old result self.new }
    {
        self.sign(b"[")?;
        let base = self.register()?;
        let displacement = self.signed_number()?;
        self.sign(b"]")?;
        Ok(WrittenAddress { base, displacement })
    }
}
