//! Structured data of items: ids, names and values, each with its part.

ghost use Rattle.std.specs.Prelude.{◌≡◌, ◌++◌, MatchOption, MatchResult, OnOk, IfOk, string_bytes};
ghost use Rattle.syslog_value.specs.Parts.{IsName};
ghost use Rattle.c_library.specs.DataItems.{BeginsPart, BeginsValue, IsElementBad, IsItemsBad, IsItemsFault};
ghost use Rattle.c_library.specs.DataItems.{IsParamsBad, StopsBehind, TakesElement, TakesElements, TakesParam};
ghost use Rattle.c_library.specs.DataItems.{TakesParams, TakesValue, HasItem, pairs};

use crate::numbers::{PART_ELEMENT_ID, PART_PARAM_NAME, PART_PARAM_VALUE};
use std::alloc::{AllocError, Global};
use syslog_grammar::utf8;
use syslog_value::{Element, Param, SdName, WordFault};

/// An item of structured data.
#[repr(C)]
#[derive(Clone, Copy)]
pub struct SyslogboxItem<'a> {
    /// Which part it is: the id of an element, the name of a parameter or its value.
    pub part: u32,
    /// Its octets: those of a value are the text that is meant.
    pub octets: &'a [u8],
}

/// Why items are no structured data.
#[derive(Clone, Copy, Debug)]
pub enum ItemsFault {
    /// The first of the last `left` items may not stand there, or has octets that it may not have; or, if none
    /// are left, a value is missing.
    Bad { left: usize },
    /// An allocation failed.
    Memory,
}

impl From<AllocError> for ItemsFault {
    ghost use Rattle.std.specs.Prelude.{◌≡◌};
    ghost use Rattle.c_library.specs.declared.items.ItemsFault.TheVariants.{Memory};

    ghost from_gives = { λ _ fault. fault ≡ Memory };

    fn from(_: AllocError) -> ItemsFault {
        ItemsFault::Memory
    }
}

/// The name of octets; None if they are no name.
fn name_of(alloc: Global, octets: &[u8]) -> Result<Option<SdName>, AllocError>
    ensures { IfOk result (λ name. MatchOption name (¬ (IsName octets.now))
        (λ n. IsName octets.now × (n ≡ octets.now))) }
{
    match SdName::new(alloc, octets) {
        Ok(name) => Ok(Some(name)),
        Err(WordFault::Memory) => Err(AllocError),
        Err(_) => Ok(None),
    }
}

/// The value that comes first; None if none does.
fn first_value(alloc: Global, items: &[SyslogboxItem<'_>]) -> Result<Option<String>, AllocError>
    ensures { IfOk result (λ found. MatchOption found (¬ (BeginsValue (pairs items.now)))
        (λ value. TakesValue (pairs items.now) (string_bytes value))) }
{
    let [value, ..] = items else {
        return Ok(None);
    };
    if value.part != PART_PARAM_VALUE {
        return Ok(None);
    }
    match utf8(value.octets) {
        Ok(text) => Ok(Some(String::from_str(alloc, text)?)),
        Err(_) => Ok(None),
    }
}

/// The parameter that comes first; None if no name comes first.
fn first_param(alloc: Global, items: &[SyslogboxItem<'_>]) -> Result<Option<Param>, ItemsFault>
    ensures { MatchResult result
        (λ found. MatchOption found (¬ (BeginsPart 9 (pairs items.now)))
        (TakesParam (pairs items.now)))
        (IsItemsFault (StopsBehind (pairs items.now))) }
{
    let [name, behind @ ..] = items else {
        return Ok(None);
    };
    if name.part != PART_PARAM_NAME {
        return Ok(None);
    }
    let Some(key) = name_of(alloc, name.octets)? else {
        return Err(ItemsFault::Bad { left: items.len() });
    };
    let Some(value) = first_value(alloc, behind)? else {
        return Err(ItemsFault::Bad { left: behind.len() });
    };
    let param = Param::new(key, value);
    let _ = param.name();
    Ok(Some(param))
}

/// The parameters that come first.
fn params_of(alloc: Global, items: &[SyslogboxItem<'_>]) -> Result<Vec<Param>, ItemsFault>
    ensures { MatchResult result (λ v. TakesParams (pairs items.now) v.items)
        (IsItemsFault (IsParamsBad (pairs items.now))) }
{
    let mut params = Vec::new(alloc);
    let mut at = 0;
    'params: while let Some(param) = first_param(alloc, &items[at..])? {
        if params.push(param).is_err() {
            return Err(ItemsFault::Memory);
        }
        at += 2;
    }
    Ok(params)
}

/// The element that comes first; None if there are no items.
fn first_element(alloc: Global, items: &[SyslogboxItem<'_>]) -> Result<Option<Element>, ItemsFault>
    ensures { MatchResult result
        (λ found. MatchOption found (¬ (HasItem (pairs items.now)))
        (TakesElement (pairs items.now)))
        (IsItemsFault (IsElementBad (pairs items.now))) }
{
    let [first, behind @ ..] = items else {
        return Ok(None);
    };
    if first.part != PART_ELEMENT_ID {
        return Err(ItemsFault::Bad { left: items.len() });
    }
    let Some(id) = name_of(alloc, first.octets)? else {
        return Err(ItemsFault::Bad { left: items.len() });
    };
    let element = Element::new(id, params_of(alloc, behind)?);
    let _ = element.id();
    Ok(Some(element))
}

/// The elements of items.
pub fn elements_of(alloc: Global, items: &[SyslogboxItem<'_>]) -> Result<Vec<Element>, ItemsFault>
    ensures { MatchResult result (λ v. TakesElements (pairs items.now) v.items)
        (IsItemsFault (IsItemsBad (pairs items.now))) }
{
    let mut elements = Vec::new(alloc);
    let mut at = 0;
    'elements: while let Some(element) = first_element(alloc, &items[at..])? {
        at += 1 + 2 * element.params().len();
        if elements.push(element).is_err() {
            return Err(ItemsFault::Memory);
        }
    }
    Ok(elements)
}
