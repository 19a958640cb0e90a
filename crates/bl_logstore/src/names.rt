//! The names in a folder.

ghost use Rattle.std.specs.Prelude.{◌≡◌, ℕ, ◌↔◌, ◌⊎◌, List, length, map, IfOk, IfErr, OnOk, IsTrue, Err, string_bytes, MatchOption, false, true};
ghost use Rattle.std.specs.Ordering.{nat_cmp};
ghost use Rattle.std.specs.List.Sorted.{IsStrictlySortedBy};
ghost use Rattle.bl_code.specs.Order.{bytes_lt};
ghost use Rattle.bl_names.specs.declared.name.FileName.TheVariants.{Log};
ghost use Rattle.bl_logstore.specs.Folders.{is_log, IsOther};
ghost use Rattle.bl_logstore.specs.Listing.{IsLeastOther, AreAllLogs, TakesName};

use crate::error::StoreErr;
use bl_code::Octets;
use bl_names::{FileName, names_one, parse_name};
use std::alloc::Global;
use std::collections::BTreeSet;

// The number of a file, if it is a log.
fn number_of(file: FileName) -> Option<u64>
    ensures { MatchOption result (is_log file ≡ false) (λ number. file ≡ Log number) }
{
    match file {
        FileName::Log(number) => Some(number),
        FileName::Current => None,
        FileName::Manifest(_) => None,
        FileName::Table(_) => None,
        FileName::Blob(_) => None,
        FileName::Temp(_) => None,
    }
}

// The number of a log's name joins the others. Answers whether the name is a store's and no log's.
fn put_name(numbers: &mut BTreeSet<u64>, name: &str) -> Result<bool, StoreErr>
    ensures put { OnOk result (TakesName name.now numbers.old.keys numbers.new.keys) }
    ensures other { IfOk result (λ other. IsTrue other ↔ IsOther name.now) }
    ensures memory { IfErr result (λ e. e ≡ StoreErr.OutOfMemory) }
{
    let Some(file) = parse_name(name) else {
        return Ok(false);
    };
    match number_of(file) {
        Some(number) => {
            numbers.insert(number)?;
            Ok(false)
        }
        None => Ok(true),
    }
}

// The first of two names, the second of which stands behind the first in the folder's list.
fn first_of<'a>(first: Option<&'a String>, name: &'a String) -> &'a String
    ensures { MatchOption first.entry (result.now ≡ name.now) (λ f. ((result.now ≡ f.now) × (bytes_lt (string_bytes name.now) (string_bytes f.now) ≡ false))
        ⊎ ((result.now ≡ name.now) × (bytes_lt (string_bytes name.now) (string_bytes f.now) ≡ true))) }
{
    match first {
        None => name,
        Some(first) => if name < first { name } else { first },
    }
}

// A file of this name may not be there.
fn refusal(alloc: Global, name: &String) -> StoreErr
    ensures { (result ≡ StoreErr.OutOfMemory) ⊎ (result ≡ StoreErr.Corrupt (string_bytes name.now) 0) }
{
    match Octets::from_slice(alloc, name.as_bytes()) {
        Ok(name) => StoreErr::Corrupt(name, 0),
        Err(_) => StoreErr::OutOfMemory,
    }
}

// The keys of a set, in order.
fn in_order(alloc: Global, mut numbers: BTreeSet<u64>) -> Result<Vec<u64>, StoreErr>
    ensures ordered { IfOk result (λ v. (v.items ≡ numbers.keys) × IsStrictlySortedBy nat_cmp v.items) }
    ensures memory { IfErr result (λ e. e ≡ StoreErr.OutOfMemory) }
{
    let mut ordered = Vec::with_capacity(alloc, numbers.len())?;
    'numbers: while let Some(number) = numbers.pop_first() {
        ordered.push(number)?;
    }
    Ok(ordered)
}

/// The numbers of the logs among the names, ascending, where no name is a store's and no log's: `Corrupt` of the first such.
pub(crate) fn log_numbers(alloc: Global, names: &[String]) -> Result<Vec<u64>, StoreErr>
    ensures logs { IfOk result (λ v. AreAllLogs (length names.now) (map string_bytes names.now) v.items) }
    ensures corrupt { (name : List ℕ) (place : ℕ) → result ≡ Err (StoreErr.Corrupt name place) → IsLeastOther (length names.now) (map string_bytes names.now) name × (place ≡ 0) }
    ensures causes { IfErr result (λ e. (e ≡ StoreErr.OutOfMemory) ⊎ ((name : List ℕ) × (e ≡ StoreErr.Corrupt name 0))) }
{
    names_one();
    let mut numbers = BTreeSet::new(alloc);
    let mut first: Option<&String> = None;
    for name in names {
        let is_other = put_name(&mut numbers, name.as_str())?;
        if is_other {
            first = Some(first_of(first, name));
        }
    }
    match first {
        None => in_order(alloc, numbers),
        Some(name) => Err(refusal(alloc, name)),
    }
}
