//! Elements of the structured data, and their parameters (RFC 5424, section 6.3).
ghost use Rattle.std.specs.Prelude.{◌≡◌, IfOk, string_bytes};
ghost use Rattle.std.specs.List.{AllByRecursion};
ghost use Rattle.syslog_value.specs.Parts.{ParamParts, ElementParts, IsParam, IsElement};

use crate::SdName;
use std::alloc::{AllocError, Global};
use std::marker::Model;

/// SD-PARAM: a name, and a value that is a text (RFC 5424, section 6.3.3).
#[derive(Debug, Drop)]
pub struct Param {
    name: SdName,
    value: String,
}

impl Model for Param {
    ghost Value = { ParamParts };

    ghost view = { λ p. record { name = p.name; value = string_bytes p.value } };

    ghost invariant = { λ p. IsParam (record { name = p.name; value = string_bytes p.value }) };
}

impl Param {
    /// The parameter with this name and value.
    pub fn new(name: SdName, value: String) -> Param
        ensures name { result.name ≡ name }
        ensures value { result.value ≡ string_bytes value }
    {
        let _ = name.bytes();
        Param { name, value }
    }

    /// PARAM-NAME.
    pub fn name(&self) -> &SdName
        ensures value { result.now ≡ self.now.name }
        ensures valid { IsParam self.now }
    {
        &self.name
    }

    /// PARAM-VALUE as it is meant, without escapes.
    pub fn value(&self) -> &str
        ensures { result.now ≡ self.now.value }
    {
        self.value.as_str()
    }

    pub(crate) fn copy(&self, alloc: Global) -> Result<Param, AllocError>
        ensures { IfOk result (λ param. param ≡ self.now) }
    {
        Ok(Param {
            name: self.name.copy(alloc)?,
            value: String::from_str(alloc, self.value.as_str())?,
        })
    }
}

impl PartialEq for Param {
    ghost use Rattle.std.specs.Prelude.{◌≡◌, ◌↔◌, IsTrue};
    ghost use Rattle.std.specs.Cmp.{decided, partial_equiv_from_equiv};
    ghost use Rattle.syslog_value.specs.EqualityLaws.{param_decides};
    ghost use Rattle.syslog_value.specs.Equality.{param_eq};

    ghost eq = { param_eq };

    ghost laws = { partial_equiv_from_equiv (decided param_eq param_decides) };

    #[tactic(auto, unfolding(crate::specs::Equality::param_eq))]
    fn eq(&self, other: &Param) -> bool
        ensures value { result ≡ param_eq self.now other.now }
        ensures same { IsTrue result ↔ (self.now ≡ other.now) }
    {
        self.name == other.name && self.value == other.value
    }
}

impl Eq for Param {
    ghost use Rattle.std.specs.Cmp.{decided};
    ghost use Rattle.syslog_value.specs.EqualityLaws.{param_decides};
    ghost use Rattle.syslog_value.specs.Equality.{param_eq};

    ghost laws = { decided param_eq param_decides };
}

/// SD-ELEMENT (RFC 5424, section 6.3.1): an id, and parameters in their order, whose names may
/// repeat.
#[derive(Debug, Drop)]
pub struct Element {
    id: SdName,
    params: Vec<Param>,
}

impl Model for Element {
    ghost Value = { ElementParts };

    ghost view = { λ e. record { id = e.id; params = e.params.items } };

    ghost invariant = { λ e. IsElement (record { id = e.id; params = e.params.items }) };
}

impl Element {
    /// The element with this id and these parameters.
    pub fn new(id: SdName, params: Vec<Param>) -> Element
        ensures id { result.id ≡ id }
        ensures params { result.params ≡ params.items }
    {
        let _ = id.bytes();
        look_at(params.as_slice());
        Element { id, params }
    }

    /// SD-ID (RFC 5424, section 6.3.2).
    pub fn id(&self) -> &SdName
        ensures value { result.now ≡ self.now.id }
        ensures valid { IsElement self.now }
    {
        &self.id
    }

    /// The parameters, in their order.
    pub fn params(&self) -> &[Param]
        ensures { result.now ≡ self.now.params }
    {
        self.params.as_slice()
    }

    pub(crate) fn copy(&self, alloc: Global) -> Result<Element, AllocError>
        ensures { IfOk result (λ element. element ≡ self.now) }
    {
        let mut params = Vec::with_capacity(alloc, self.params.len())?;
        for param in &self.params {
            params.push(param.copy(alloc)?)?;
        }
        Ok(Element {
            id: self.id.copy(alloc)?,
            params,
        })
    }
}

impl PartialEq for Element {
    ghost use Rattle.std.specs.Prelude.{◌≡◌, ◌↔◌, IsTrue};
    ghost use Rattle.std.specs.Cmp.{decided, partial_equiv_from_equiv};
    ghost use Rattle.syslog_value.specs.EqualityLaws.{element_decides};
    ghost use Rattle.syslog_value.specs.Equality.{element_eq};

    ghost eq = { element_eq };

    ghost laws = { partial_equiv_from_equiv (decided element_eq element_decides) };

    #[tactic(auto, unfolding(crate::specs::Equality::element_eq))]
    fn eq(&self, other: &Element) -> bool
        ensures value { result ≡ element_eq self.now other.now }
        ensures same { IsTrue result ↔ (self.now ≡ other.now) }
    {
        self.id == other.id && self.params == other.params
    }
}

impl Eq for Element {
    ghost use Rattle.std.specs.Cmp.{decided};
    ghost use Rattle.syslog_value.specs.EqualityLaws.{element_decides};
    ghost use Rattle.syslog_value.specs.Equality.{element_eq};

    ghost laws = { decided element_eq element_decides };
}

// a look at each parameter, which is valid by its type
fn look_at(params: &[Param])
    ensures { AllByRecursion IsParam params.now }
{
    for param in params {
        let _ = param.name();
    }
}
