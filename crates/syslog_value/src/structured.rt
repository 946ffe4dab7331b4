//! Structured data: elements whose ids are all different (RFC 5424, section 6.3).
ghost use Rattle.std.specs.Prelude.{◌≡◌, ◌≢◌, ◌↔◌, List, [], length};
ghost use Rattle.std.specs.Prelude.{OnOk, IfOk, IfErr, IsSome, IfSome, MatchBool};
ghost use Rattle.std.specs.Cmp.Lexicographic.{slice_cmp};
ghost use Rattle.std.specs.List.{AllByRecursion, AllAdjacentBelow};
ghost use Rattle.std.specs.List.Sorted.{IsSearchInRange, IsBinarySearchResult};
ghost use Rattle.std.specs.List.Sorted.{IsPermutation, IsSortedByKey};
ghost use Rattle.std.specs.Ordering.{nat_cmp};
ghost use Rattle.syslog_value.specs.Parts.{ElementParts, IsElement, IsById};
ghost use Rattle.syslog_value.specs.Structured.{AddsElement, IsPushFault};
ghost use Rattle.syslog_value.specs.Structured.{HaveDistinctIds, HasEqualNeighbours};

use crate::{Element, SdName};
use std::alloc::{AllocError, Global};
use std::marker::Model;
use thiserror::Error;

/// Why an element was not added: the first of these that holds.
#[derive(Clone, Copy, Debug, PartialEq, Eq, Error)]
pub enum PushFault {
    /// There is an element with this id.
    #[error("there is an element with this id")]
    RepeatedId,
    /// An allocation failed.
    #[error("out of memory")]
    Memory,
}

/// STRUCTURED-DATA: elements in the order of their ids as octets, since their order in a text
/// carries no meaning.
#[derive(Debug, Drop)]
pub struct StructuredData {
    elements: Vec<Element>,
}

impl Model for StructuredData {
    ghost Value = { List ElementParts };

    ghost view = { λ s. s.elements.items };

    ghost invariant = { λ s. AllByRecursion IsElement s.elements.items × IsById s.elements.items };
}

impl StructuredData {
    /// Structured data without elements.
    pub fn empty(alloc: Global) -> StructuredData
        ensures { result ≡ [] }
    {
        StructuredData {
            elements: Vec::new(alloc),
        }
    }

    /// Structured data of elements in any order. None if an id occurs twice.
    pub fn from_elements(elements: Vec<Element>) -> Option<StructuredData>
        ensures distinct { IsSome result ↔ HaveDistinctIds elements.items }
        ensures value { IfSome result (IsPermutation elements.items) }
        ensures by_id { IfSome result IsById }
    {
        let mut elements = elements;
        look_at(elements.as_slice());
        sort_by_id(&mut elements);
        if has_equal_neighbours(elements.as_slice()) {
            return None;
        }
        Some(StructuredData { elements })
    }

    /// The elements, in ascending order of their ids.
    pub fn elements(&self) -> &[Element]
        ensures value { result.now ≡ self.now }
        ensures valid { AllByRecursion IsElement self.now }
        ensures by_id { IsById self.now }
    {
        self.elements.as_slice()
    }

    /// Adds an element in the order of the ids. It comes back if its id is there already, or if an
    /// allocation failed.
    pub fn push(&mut self, element: Element) -> Result<(), (Element, PushFault)>
        ensures ok { OnOk result (AddsElement element self.old self.new) }
        ensures err { IfErr result (λ refusal.
            (refusal.0 ≡ element) × IsPushFault self.old element refusal.1
            × (self.new ≡ self.old)) }
    {
        let offset = match offset_of(self.elements.as_slice(), element.id()) {
            Ok(_) => return Err((element, PushFault::RepeatedId)),
            Err(offset) => offset,
        };
        if let Err(refused) = self.elements.insert(offset, element) {
            return Err((refused.value, PushFault::Memory));
        }
        Ok(())
    }

    /// A copy in memory of its own. It fails only when out of memory.
    pub fn copy(&self, alloc: Global) -> Result<StructuredData, AllocError>
        ensures { IfOk result (λ copied. copied ≡ self.now) }
    {
        let mut elements = Vec::with_capacity(alloc, self.elements.len())?;
        for element in &self.elements {
            elements.push(element.copy(alloc)?)?;
        }
        Ok(StructuredData { elements })
    }
}

impl PartialEq for StructuredData {
    ghost use Rattle.std.specs.Prelude.{◌≡◌, ◌↔◌, IsTrue};
    ghost use Rattle.std.specs.Cmp.{decided, partial_equiv_from_equiv};
    ghost use Rattle.syslog_value.specs.EqualityLaws.{elements_decide};
    ghost use Rattle.std.specs.Cmp.Lexicographic.{pointwise};
    ghost use Rattle.syslog_value.specs.Equality.{element_eq};

    ghost eq = { pointwise element_eq };

    ghost laws = { partial_equiv_from_equiv (decided (pointwise element_eq) elements_decide) };

    fn eq(&self, other: &StructuredData) -> bool
        ensures value { result ≡ pointwise element_eq self.now other.now }
        ensures same { IsTrue result ↔ (self.now ≡ other.now) }
    {
        self.elements == other.elements
    }
}

impl Eq for StructuredData {
    ghost use Rattle.std.specs.Cmp.{decided};
    ghost use Rattle.syslog_value.specs.EqualityLaws.{elements_decide};
    ghost use Rattle.std.specs.Cmp.Lexicographic.{pointwise};
    ghost use Rattle.syslog_value.specs.Equality.{element_eq};

    ghost laws = { decided (pointwise element_eq) elements_decide };
}

// the offset of the element with this id, or the offset at which to insert one
fn offset_of(elements: &[Element], id: &SdName) -> Result<usize, usize>
    ensures bound { IsSearchInRange result (length elements.now) }
    ensures offset { IsBinarySearchResult (λ e. slice_cmp nat_cmp e.id id.now) elements.now result }
{
    elements.binary_search_by(|element| element.id().bytes().cmp(id.bytes()))
}

// a look at each element, which is valid by its type
fn look_at(elements: &[Element])
    ensures { AllByRecursion IsElement elements.now }
{
    for element in elements {
        let _ = element.id();
    }
}

fn sort_by_id(elements: &mut Vec<Element>)
    ensures permutation { IsPermutation elements.old.items elements.new.items }
    ensures sorted { IsSortedByKey (λ e. e.id) (slice_cmp nat_cmp) elements.new.items }
{
    elements.sort_unstable_by(|one, other| one.id().bytes().cmp(other.id().bytes()));
}

fn has_equal_neighbours(elements: &[Element]) -> bool
    ensures { MatchBool result (HasEqualNeighbours elements.now)
        (AllAdjacentBelow (λ e f. e.id ≢ f.id) elements.now (length elements.now)) }
{
    for offset in 1..elements.len() {
        if elements[offset - 1].id() == elements[offset].id() {
            return true;
        }
    }
    false
}
