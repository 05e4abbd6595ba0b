//! The values that the encoding spells: those that own their memory, and, with `Ref` in their
//! names, those that are read in place.

ghost use Rattle.std.specs.Prelude.{◌≡◌, ◌↔◌, List, [], ℕ, length, string_bytes, IfOk, IsTrue, MatchResult, nat_eq, true};
ghost use Rattle.std.specs.Option.{option_copied};
ghost use Rattle.std.specs.Str.{is_utf8};
ghost use Rattle.std.specs.Cmp.{partial_equiv_from_equiv};
ghost use Rattle.std.specs.Cmp.Lexicographic.{pointwise, nat_list_eq_equiv};

use crate::fault::BinaryFault;
use crate::try_clone::TryClone;
use std::alloc::{AllocError, Global};
use std::marker::Model;
use std::ops::{DerefSlice, DerefStr};

/// A text of its own memory (Part 6, 5.2.2.4), which contracts see as the list of its UTF-8 bytes.
/// It may be read as a `&str`.
#[derive(Debug, Drop)]
pub struct Text {
    inner: String,
}

impl Model for Text {
    ghost Value = { List ℕ };

    ghost view = { λ t. string_bytes t.inner };
}

impl Text {
    /// The text in this `String`, in its memory.
    pub fn new(inner: String) -> Text
        ensures { result ≡ string_bytes inner }
    {
        Text { inner }
    }

    /// A copy of a text.
    pub fn from_str(alloc: Global, text: &str) -> Result<Text, AllocError>
        ensures { IfOk result (λ t. t ≡ text.now) }
    {
        let inner = String::from_str(alloc, text)?;
        Ok(Text { inner })
    }

    #[tactic(auto, using(crate::proofs::Utf8::tested))]
    pub fn as_str(&self) -> &str
        ensures same { result.now ≡ self.now }
        ensures utf8 { is_utf8 self.now ≡ true }
    {
        self.inner.as_str()
    }

    /// The text as a `String`, in the same memory.
    pub fn into_string(self) -> String
        ensures { string_bytes result ≡ self }
    {
        self.inner
    }

    /// How many bytes it has.
    pub fn len(&self) -> usize
        ensures { result ≡ length self.now }
    {
        self.as_str().len()
    }

    pub fn is_empty(&self) -> bool
        ensures { IsTrue result ↔ (self.now ≡ []) }
    {
        self.as_str().is_empty()
    }
}

impl Text {
    ghost use Rattle.ua_binary.specs.Binary.{IsCounted, IsText};

    /// A text, where there is one, read in place.
    fn lent(text: &Option<Text>) -> Option<&str>
        ensures same { option_copied result ≡ text.now }
        ensures spelled { IsCounted text.now → IsText text.now }
    {
        match text {
            None => None,
            Some(text) => Some(text.as_str()),
        }
    }
}

impl DerefStr for Text {
    ghost deref_gives = { λ t bytes. bytes ≡ t };

    fn deref(&self) -> &str {
        self.as_str()
    }
}

impl PartialEq for Text {
    ghost eq = { pointwise nat_eq };

    ghost laws = { partial_equiv_from_equiv nat_list_eq_equiv };

    fn eq(&self, other: &Text) -> bool
        ensures computed { result ≡ pointwise nat_eq self.now other.now }
        ensures same { IsTrue result ↔ (self.now ≡ other.now) }
    {
        self.as_str() == other.as_str()
    }
}

impl Eq for Text {
    ghost laws = { nat_list_eq_equiv };
}

impl TryClone for Text {
    fn try_clone(&self) -> Result<Text, AllocError> {
        let inner = self.inner.clone()?;
        Ok(Text { inner })
    }
}

/// Bytes of their own memory (Part 6, 5.2.2.7), which contracts see as a list. They may be read as
/// a `&[u8]`.
#[derive(Debug, Drop)]
pub struct Bytes {
    inner: Vec<u8>,
}

impl Model for Bytes {
    ghost Value = { List ℕ };

    ghost view = { λ t. t.inner.items };
}

impl Bytes {
    /// The bytes in this `Vec`, in its memory.
    pub fn new(inner: Vec<u8>) -> Bytes
        ensures { result ≡ inner.items }
    {
        Bytes { inner }
    }

    /// A copy of some bytes.
    pub fn from_slice(alloc: Global, bytes: &[u8]) -> Result<Bytes, AllocError>
        ensures { IfOk result (λ b. b ≡ bytes.now) }
    {
        let inner = Vec::from_slice(alloc, bytes)?;
        Ok(Bytes { inner })
    }

    pub fn as_slice(&self) -> &[u8]
        ensures { result.now ≡ self.now }
    {
        self.inner.as_slice()
    }

    /// The bytes as a `Vec`, in the same memory.
    pub fn into_vec(self) -> Vec<u8>
        ensures { result.items ≡ self }
    {
        self.inner
    }

    pub fn len(&self) -> usize
        ensures { result ≡ length self.now }
    {
        self.inner.len()
    }

    pub fn is_empty(&self) -> bool
        ensures { IsTrue result ↔ (self.now ≡ []) }
    {
        self.as_slice().is_empty()
    }
}

impl DerefSlice for Bytes {
    type Elem = u8;

    ghost deref_gives = { λ b bytes. bytes ≡ b };

    fn deref(&self) -> &[u8] {
        self.as_slice()
    }
}

impl PartialEq for Bytes {
    ghost eq = { pointwise nat_eq };

    ghost laws = { partial_equiv_from_equiv nat_list_eq_equiv };

    fn eq(&self, other: &Bytes) -> bool
        ensures computed { result ≡ pointwise nat_eq self.now other.now }
        ensures same { IsTrue result ↔ (self.now ≡ other.now) }
    {
        self.as_slice() == other.as_slice()
    }
}

impl Eq for Bytes {
    ghost laws = { nat_list_eq_equiv };
}

impl TryClone for Bytes {
    fn try_clone(&self) -> Result<Bytes, AllocError> {
        let inner = self.inner.clone()?;
        Ok(Bytes { inner })
    }
}

/// A globally unique id (Part 6, 5.2.2.6), in the four parts that the encoding has.
#[derive(Clone, Copy, Debug, PartialEq, Eq)]
pub struct Guid {
    pub first: u32,
    pub second: u16,
    pub third: u16,
    pub last: [u8; 8],
}

impl Guid {
    ghost use Rattle.ua_binary.specs.Binary.{guid_of, IsGuid};

    pub fn new(first: u32, second: u16, third: u16, last: [u8; 8]) -> Guid
        ensures parts { result ≡ guid_of (first, (second, (third, last))) }
        ensures spelled { IsGuid result }
    {
        Guid {
            first,
            second,
            third,
            last,
        }
    }
}

impl TryClone for Guid {
    fn try_clone(&self) -> Result<Guid, AllocError> {
        Ok(*self)
    }
}

/// A moment (Part 6, 5.2.2.5): steps of 100 ns since 1601-01-01 00:00 UTC.
#[derive(Clone, Copy, Debug, PartialEq, Eq, PartialOrd, Ord)]
pub struct Ticks(pub i64);

impl TryClone for Ticks {
    fn try_clone(&self) -> Result<Ticks, AllocError> {
        Ok(*self)
    }
}

/// The name of a node (Part 6, 5.2.2.9): the index of its namespace, and its id there.
#[derive(Debug, Drop, PartialEq, Eq)]
pub enum NodeId {
    Numeric(u16, u32),
    Named(u16, Text),
    Global(u16, Guid),
    Opaque(u16, Bytes),
}

impl NodeId {
    ghost use Rattle.ua_binary.specs.Binary.{node_of, IsNodeId, IsShortNode};

    /// The same node, read in place. Each node whose id can be counted has a spelling.
    pub fn as_ref(&self) -> NodeIdRef<'_>
        ensures same { node_of result ≡ self.now }
        ensures spelled { IsShortNode self.now → IsNodeId self.now }
    {
        match self {
            NodeId::Numeric(namespace, id) => NodeIdRef::Numeric(*namespace, *id),
            NodeId::Named(namespace, name) => NodeIdRef::Named(*namespace, name.as_str()),
            NodeId::Global(namespace, id) => {
                let id = Guid::new(id.first, id.second, id.third, id.last);
                NodeIdRef::Global(*namespace, id)
            }
            NodeId::Opaque(namespace, id) => NodeIdRef::Opaque(*namespace, id.as_slice()),
        }
    }
}

impl TryClone for NodeId {
    fn try_clone(&self) -> Result<NodeId, AllocError> {
        Ok(match self {
            NodeId::Numeric(namespace, id) => NodeId::Numeric(*namespace, *id),
            NodeId::Named(namespace, name) => NodeId::Named(*namespace, name.try_clone()?),
            NodeId::Global(namespace, id) => NodeId::Global(*namespace, *id),
            NodeId::Opaque(namespace, id) => NodeId::Opaque(*namespace, id.try_clone()?),
        })
    }
}

/// The name of a node, in the bytes that it was read from.
#[derive(Clone, Copy, Debug, Drop, PartialEq, Eq)]
pub enum NodeIdRef<'a> {
    Numeric(u16, u32),
    Named(u16, &'a str),
    Global(u16, Guid),
    Opaque(u16, &'a [u8]),
}

impl<'a> NodeIdRef<'a> {
    ghost use Rattle.ua_binary.specs.Binary.{node_of};

    /// The same node, in memory of its own. The one error is `OutOfMemory`.
    pub fn to_owned(self, alloc: Global) -> Result<NodeId, BinaryFault>
        ensures { MatchResult result (λ v. v ≡ node_of self.entry) (λ e. e ≡ BinaryFault.OutOfMemory) }
    {
        Ok(match self {
            NodeIdRef::Numeric(namespace, id) => NodeId::Numeric(namespace, id),
            NodeIdRef::Named(namespace, name) => {
                NodeId::Named(namespace, Text::from_str(alloc, name)?)
            }
            NodeIdRef::Global(namespace, id) => NodeId::Global(namespace, id),
            NodeIdRef::Opaque(namespace, id) => {
                NodeId::Opaque(namespace, Bytes::from_slice(alloc, id)?)
            }
        })
    }
}

/// A name in a namespace (Part 6, 5.2.2.13).
#[derive(Debug, Drop, PartialEq, Eq)]
pub struct QualifiedName {
    pub namespace: u16,
    pub name: Option<Text>,
}

impl QualifiedName {
    ghost use Rattle.ua_binary.specs.Binary.{qualified_of, IsCounted, IsQualified};

    /// The same name, read in place. Each that can be counted has a spelling.
    pub fn as_ref(&self) -> QualifiedRef<'_>
        ensures same { qualified_of result ≡ self.now }
        ensures spelled { IsCounted self.now.name → IsQualified self.now }
    {
        let QualifiedName { namespace, name } = self;
        QualifiedRef {
            namespace: *namespace,
            name: Text::lent(name),
        }
    }
}

impl TryClone for QualifiedName {
    fn try_clone(&self) -> Result<QualifiedName, AllocError> {
        let name = self.name.try_clone()?;
        Ok(QualifiedName {
            namespace: self.namespace,
            name,
        })
    }
}

/// A name in a namespace, in the bytes that it was read from.
#[derive(Clone, Copy, Debug, Drop, PartialEq, Eq)]
pub struct QualifiedRef<'a> {
    pub namespace: u16,
    pub name: Option<&'a str>,
}

impl<'a> QualifiedRef<'a> {
    ghost use Rattle.ua_binary.specs.Binary.{qualified_of};

    /// The same name, in memory of its own. The one error is `OutOfMemory`.
    pub fn to_owned(self, alloc: Global) -> Result<QualifiedName, BinaryFault>
        ensures { MatchResult result (λ v. v ≡ qualified_of self.entry)
            (λ e. e ≡ BinaryFault.OutOfMemory) }
    {
        let name = owned_text(alloc, self.name)?;
        Ok(QualifiedName {
            namespace: self.namespace,
            name,
        })
    }
}

/// A text and the language that it is in (Part 6, 5.2.2.14), each where it is there.
#[derive(Debug, Drop, PartialEq, Eq)]
pub struct LocalizedText {
    pub locale: Option<Text>,
    pub text: Option<Text>,
}

impl LocalizedText {
    ghost use Rattle.ua_binary.specs.Binary.{localized_of, IsLocalized, IsShortLocalized};

    /// The same text, read in place. Each whose parts can be counted has a spelling.
    pub fn as_ref(&self) -> LocalizedRef<'_>
        ensures same { localized_of result ≡ self.now }
        ensures spelled { IsShortLocalized self.now → IsLocalized self.now }
    {
        LocalizedRef {
            locale: Text::lent(&self.locale),
            text: Text::lent(&self.text),
        }
    }
}

impl TryClone for LocalizedText {
    fn try_clone(&self) -> Result<LocalizedText, AllocError> {
        let locale = self.locale.try_clone()?;
        let text = self.text.try_clone()?;
        Ok(LocalizedText { locale, text })
    }
}

/// A text in a language, in the bytes that it was read from.
#[derive(Clone, Copy, Debug, Drop, PartialEq, Eq)]
pub struct LocalizedRef<'a> {
    pub locale: Option<&'a str>,
    pub text: Option<&'a str>,
}

impl<'a> LocalizedRef<'a> {
    ghost use Rattle.ua_binary.specs.Binary.{localized_of};

    /// The same text, in memory of its own. The one error is `OutOfMemory`.
    pub fn to_owned(self, alloc: Global) -> Result<LocalizedText, BinaryFault>
        ensures { MatchResult result (λ v. v ≡ localized_of self.entry)
            (λ e. e ≡ BinaryFault.OutOfMemory) }
    {
        let locale = owned_text(alloc, self.locale)?;
        let text = owned_text(alloc, self.text)?;
        Ok(LocalizedText { locale, text })
    }
}

/// What an extension object holds: nothing, a structure in the binary encoding, or one in XML.
#[derive(Debug, Drop, PartialEq, Eq)]
pub enum Body {
    Absent,
    Binary(Bytes),
    Xml(Bytes),
}

impl Body {
    ghost use Rattle.ua_binary.specs.Binary.{body_of};

    /// The same body, read in place.
    pub fn as_ref(&self) -> BodyRef<'_>
        ensures { body_of result ≡ self.now }
    {
        match self {
            Body::Absent => BodyRef::Absent,
            Body::Binary(bytes) => BodyRef::Binary(bytes.as_slice()),
            Body::Xml(bytes) => BodyRef::Xml(bytes.as_slice()),
        }
    }
}

impl TryClone for Body {
    fn try_clone(&self) -> Result<Body, AllocError> {
        Ok(match self {
            Body::Absent => Body::Absent,
            Body::Binary(bytes) => Body::Binary(bytes.try_clone()?),
            Body::Xml(bytes) => Body::Xml(bytes.try_clone()?),
        })
    }
}

/// What an extension object holds, in the bytes that it was read from.
#[derive(Clone, Copy, Debug, Drop, PartialEq, Eq)]
pub enum BodyRef<'a> {
    Absent,
    Binary(&'a [u8]),
    Xml(&'a [u8]),
}

/// A structure with the id of its type (Part 6, 5.2.2.15).
#[derive(Debug, Drop, PartialEq, Eq)]
pub struct ExtensionObject {
    pub type_id: NodeId,
    pub body: Body,
}

impl ExtensionObject {
    ghost use Rattle.ua_binary.specs.Binary.{extension_of, IsBody, IsExtension, IsShortNode};

    /// The same structure, read in place. Each whose id and body can be counted has a spelling.
    pub fn as_ref(&self) -> ExtensionRef<'_>
        ensures same { extension_of result ≡ self.now }
        ensures spelled { IsShortNode self.now.type_id × IsBody self.now.body → IsExtension self.now }
    {
        ExtensionRef {
            type_id: self.type_id.as_ref(),
            body: self.body.as_ref(),
        }
    }
}

impl TryClone for ExtensionObject {
    fn try_clone(&self) -> Result<ExtensionObject, AllocError> {
        let type_id = self.type_id.try_clone()?;
        let body = self.body.try_clone()?;
        Ok(ExtensionObject { type_id, body })
    }
}

/// A structure with the id of its type, in the bytes that it was read from.
#[derive(Clone, Copy, Debug, Drop, PartialEq, Eq)]
pub struct ExtensionRef<'a> {
    pub type_id: NodeIdRef<'a>,
    pub body: BodyRef<'a>,
}

impl<'a> ExtensionRef<'a> {
    ghost use Rattle.ua_binary.specs.Binary.{extension_of};

    /// The same structure, in memory of its own. The one error is `OutOfMemory`.
    pub fn to_owned(self, alloc: Global) -> Result<ExtensionObject, BinaryFault>
        ensures { MatchResult result (λ v. v ≡ extension_of self.entry)
            (λ e. e ≡ BinaryFault.OutOfMemory) }
    {
        let type_id = self.type_id.to_owned(alloc)?;
        let body = match self.body {
            BodyRef::Absent => Body::Absent,
            BodyRef::Binary(bytes) => Body::Binary(Bytes::from_slice(alloc, bytes)?),
            BodyRef::Xml(bytes) => Body::Xml(Bytes::from_slice(alloc, bytes)?),
        };
        Ok(ExtensionObject { type_id, body })
    }
}

/// A text in memory of its own, where there is one.
fn owned_text(alloc: Global, text: Option<&str>) -> Result<Option<Text>, BinaryFault>
    ensures { MatchResult result (λ v. v ≡ option_copied text.entry)
        (λ e. e ≡ BinaryFault.OutOfMemory) }
{
    match text {
        None => Ok(None),
        Some(text) => Ok(Some(Text::from_str(alloc, text)?)),
    }
}
