//! What a line orders.

ghost use Rattle.std.specs.Prelude.{◌≡◌, ℕ, ◌<◌, ◌≤◌, [], ◌∷◌, ◌++◌, length, IfOk, IfSome, MatchOption, Some, None, codes};
ghost use Rattle.std.specs.List.{list_any};
ghost use Rattle.std.specs.Option.{option_map};
ghost use Rattle.bl_script.specs.Lines.{words};
ghost use Rattle.bl_script.specs.Parsing.{is, value, bound, operations, batch_of, scan_of, with_none, with_one, with_two, fixed_of, command_of, allowed, parsed, is_long_key, is_long_value, is_long_bound, puts_long_key, puts_long_value, has_long_key, has_long_value};
ghost use Rattle.bl_script.specs.Limits.{IsWithinLimits, ParsedAreWithinLimits};

use crate::command::{Command, Operation, Operations, Parsed, Refusal};
use crate::decode::decode;
use crate::error::ScriptErr;
use crate::words::next_word;
use bl_code::{MAX_KEY, MAX_VALUE, Octets};
use std::alloc::Global;

/// The most bytes of a line that is obeyed. A 0x0D at its end that is dropped does not count.
pub const MAX_LINE: usize = 67_108_864;

// The value of a word that begins with =.
fn value_of(alloc: Global, word: &[u8]) -> Result<Option<Octets>, ScriptErr>
    requires { 0 < length word.now }
    ensures { IfOk result (λ r. r ≡ value word.now) }
{
    if word[0] == b'=' {
        Ok(Some(decode(alloc, &word[1..])?))
    } else {
        Ok(None)
    }
}

// The key of a bound of `scan`.
fn bound_of(alloc: Global, word: &[u8]) -> Result<Option<Octets>, ScriptErr>
    requires { 0 < length word.now }
    ensures { IfOk result (λ r. r ≡ bound word.now) }
{
    if word[0] == b'@' {
        Ok(None)
    } else {
        Ok(Some(decode(alloc, word)?))
    }
}

// Behind `scan`.
fn scan_from(alloc: Global, rest: &[u8]) -> Result<Option<Command>, ScriptErr>
    ensures { IfOk result (λ r. r ≡ scan_of (words rest.now)) }
{
    let Some((first, behind_first)) = next_word(rest) else {
        return Ok(Some(Command::Scan {
            from: None,
            to: None,
        }));
    };
    let Some((second, behind_second)) = next_word(behind_first) else {
        return match bound_of(alloc, first)? {
            Some(from) => Ok(Some(Command::Scan {
                from: Some(from),
                to: None,
            })),
            None => Ok(None),
        };
    };
    if next_word(behind_second).is_some() {
        return Ok(None);
    }
    scan_between(alloc, first, second)
}

fn scan_between(alloc: Global, first: &[u8], second: &[u8]) -> Result<Option<Command>, ScriptErr>
    requires first { 0 < length first.now }
    requires second { 0 < length second.now }
    ensures { IfOk result (λ r. r ≡ scan_of (first.now ∷ second.now ∷ [])) }
{
    let Some(from) = bound_of(alloc, first)? else {
        return Ok(None);
    };
    let Some(to) = bound_of(alloc, second)? else {
        return Ok(None);
    };
    Ok(Some(Command::Scan {
        from: Some(from),
        to: Some(to),
    }))
}

fn is_del(verb: &[u8]) -> bool
    ensures { result ≡ is verb.now (codes "del") }
{
    verb == b"del".as_slice()
}

fn is_put(verb: &[u8]) -> bool
    ensures { result ≡ is verb.now (codes "put") }
{
    verb == b"put".as_slice()
}

// The operation that begins with this word, and what is behind it.
fn next_operation<'a>(
    alloc: Global,
    verb: &[u8],
    rest: &'a [u8],
) -> Result<Option<(Operation, &'a [u8])>, ScriptErr>
    ensures one { IfOk result (λ r. MatchOption r (operations (verb.now ∷ words rest.now) ≡ None)
        (λ x. operations (verb.now ∷ words rest.now) ≡ option_map (λ more. x.0 ∷ more) (operations (words x.1.now)))) }
    ensures short { IfOk result (λ r. IfSome r (λ x. length x.1.now < length rest.now)) }
{
    let Some((key, behind_key)) = next_word(rest) else {
        return Ok(None);
    };
    if is_del(verb) {
        let key = decode(alloc, key)?;
        return Ok(Some((Operation::Del { key }, behind_key)));
    }
    if !is_put(verb) {
        return Ok(None);
    }
    let Some((third, behind_value)) = next_word(behind_key) else {
        return Ok(None);
    };
    let Some(value) = value_of(alloc, third)? else {
        return Ok(None);
    };
    let key = decode(alloc, key)?;
    Ok(Some((Operation::Put { key, value }, behind_value)))
}

// Behind `batch`.
fn batch_from(alloc: Global, rest: &[u8]) -> Result<Option<Command>, ScriptErr>
    ensures { IfOk result (λ r. r ≡ batch_of (words rest.now)) }
{
    let mut items = Vec::new(alloc);
    let mut left = rest;
    'operations: while let Some((verb, behind)) = next_word(left) {
        match next_operation(alloc, verb, behind)? {
            Some((operation, more)) => {
                items.push(operation)?;
                left = more;
            }
            None => return Ok(None),
        }
    }
    if items.is_empty() {
        Ok(None)
    } else {
        Ok(Some(Command::Batch {
            operations: Operations::from_vec(items),
        }))
    }
}

fn command_alone(verb: &[u8]) -> Option<Command>
    ensures { result ≡ with_none verb.now }
{
    if verb == b"sync".as_slice() {
        Some(Command::Sync)
    } else if verb == b"flush".as_slice() {
        Some(Command::Flush)
    } else if verb == b"files".as_slice() {
        Some(Command::Files)
    } else if verb == b"reopen".as_slice() {
        Some(Command::Reopen)
    } else {
        None
    }
}

fn command_with_one(alloc: Global, verb: &[u8], word: &[u8]) -> Result<Option<Command>, ScriptErr>
    ensures { IfOk result (λ r. r ≡ with_one verb.now word.now) }
{
    if verb == b"del".as_slice() {
        let key = decode(alloc, word)?;
        Ok(Some(Command::Del { key }))
    } else if verb == b"get".as_slice() {
        let key = decode(alloc, word)?;
        Ok(Some(Command::Get { key }))
    } else {
        Ok(None)
    }
}

fn command_with_two(
    alloc: Global,
    verb: &[u8],
    first: &[u8],
    second: &[u8],
) -> Result<Option<Command>, ScriptErr>
    requires { 0 < length second.now }
    ensures { IfOk result (λ r. r ≡ with_two verb.now first.now second.now) }
{
    if verb != b"put".as_slice() {
        return Ok(None);
    }
    match value_of(alloc, second)? {
        Some(value) => {
            let key = decode(alloc, first)?;
            Ok(Some(Command::Put { key, value }))
        }
        None => Ok(None),
    }
}

// The commands of which the number of words is fixed.
fn fixed_from(alloc: Global, verb: &[u8], rest: &[u8]) -> Result<Option<Command>, ScriptErr>
    ensures { IfOk result (λ r. r ≡ fixed_of verb.now (words rest.now)) }
{
    let Some((first, behind_first)) = next_word(rest) else {
        return Ok(command_alone(verb));
    };
    let Some((second, behind_second)) = next_word(behind_first) else {
        return command_with_one(alloc, verb, first);
    };
    if next_word(behind_second).is_some() {
        return Ok(None);
    }
    command_with_two(alloc, verb, first, second)
}

// By the verb and what is behind it.
fn command_from(alloc: Global, verb: &[u8], rest: &[u8]) -> Result<Option<Command>, ScriptErr>
    ensures { IfOk result (λ r. r ≡ command_of verb.now (words rest.now)) }
{
    if verb == b"scan".as_slice() {
        scan_from(alloc, rest)
    } else if verb == b"batch".as_slice() {
        batch_from(alloc, rest)
    } else {
        fixed_from(alloc, verb, rest)
    }
}

fn is_long_key(key: &Octets) -> bool
    ensures { result ≡ is_long_key key.now }
{
    key.as_slice().len() > MAX_KEY
}

fn is_long_value(value: &Octets) -> bool
    ensures { result ≡ is_long_value value.now }
{
    value.as_slice().len() > MAX_VALUE
}

fn is_long_bound(bound: &Option<Octets>) -> bool
    ensures { result ≡ is_long_bound bound.now }
{
    match bound {
        Some(key) => is_long_key(key),
        None => false,
    }
}

fn puts_long_key(operation: &Operation) -> bool
    ensures { result ≡ puts_long_key operation.now }
{
    match operation {
        Operation::Put { key, value: _ } => is_long_key(key),
        Operation::Del { key } => is_long_key(key),
    }
}

fn puts_long_value(operation: &Operation) -> bool
    ensures { result ≡ puts_long_value operation.now }
{
    match operation {
        Operation::Put { key: _, value } => is_long_value(value),
        Operation::Del { key: _ } => false,
    }
}

fn some_long_key(operations: &[Operation]) -> bool
    ensures { result ≡ list_any puts_long_key operations.now }
{
    operations.iter().any(|operation| puts_long_key(operation))
}

fn some_long_value(operations: &[Operation]) -> bool
    ensures { result ≡ list_any puts_long_value operations.now }
{
    operations
        .iter()
        .any(|operation| puts_long_value(operation))
}

fn has_long_key(command: &Command) -> bool
    ensures { result ≡ has_long_key command.now }
{
    match command {
        Command::Put { key, value: _ } => is_long_key(key),
        Command::Del { key } => is_long_key(key),
        Command::Get { key } => is_long_key(key),
        Command::Batch { operations } => some_long_key(operations.as_slice()),
        Command::Scan { from, to } => is_long_bound(from) || is_long_bound(to),
        Command::Sync => false,
        Command::Flush => false,
        Command::Files => false,
        Command::Reopen => false,
    }
}

fn has_long_value(command: &Command) -> bool
    ensures { result ≡ has_long_value command.now }
{
    match command {
        Command::Put { key: _, value } => is_long_value(value),
        Command::Batch { operations } => some_long_value(operations.as_slice()),
        Command::Del { key: _ } => false,
        Command::Get { key: _ } => false,
        Command::Scan { from: _, to: _ } => false,
        Command::Sync => false,
        Command::Flush => false,
        Command::Files => false,
        Command::Reopen => false,
    }
}

// The limits on keys, and then those on values.
fn within_limits(command: Command) -> Parsed
    ensures { result ≡ allowed command }
{
    if has_long_key(&command) {
        Parsed::Refused(Refusal::Key)
    } else if has_long_value(&command) {
        Parsed::Refused(Refusal::Value)
    } else {
        Parsed::Go(command)
    }
}

/// What a line orders is within the limits on keys, values and batches.
pub fn parsed_are_within_limits()
    ensures { ParsedAreWithinLimits }
{}

/// What a line orders, without its end and a 0x0D before it. Of the refusals `Long`, `Syntax`, `Key` and `Value` the first that
/// applies is answered, and a command is within the limits.
///
/// Errors: `OutOfMemory` alone.
#[tactic(auto, unfolding(crate::specs::Parsing::parsed))]
pub fn parse_line(alloc: Global, line: &[u8]) -> Result<Parsed, ScriptErr>
    ensures parsed { IfOk result (λ p. p ≡ parsed line.now) }
    ensures within { IfOk result IsWithinLimits }
{
    parsed_are_within_limits();
    if line.len() > MAX_LINE {
        return Ok(Parsed::Refused(Refusal::Long));
    }
    let Some((verb, rest)) = next_word(line) else {
        return Ok(Parsed::Nothing);
    };
    if line[0] == b'#' {
        return Ok(Parsed::Nothing);
    }
    match command_from(alloc, verb, rest)? {
        Some(command) => Ok(within_limits(command)),
        None => Ok(Parsed::Refused(Refusal::Syntax)),
    }
}
