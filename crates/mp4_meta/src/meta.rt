//! Metadata.

ghost use Rattle.mp4_codec.specs.ExactTest.{by_law, exact_enum, field_tests, list, number, pair};
ghost use Rattle.mp4_meta.specs.contracts.ilst.IlstBoxExactEq.TheImpl.Laws.{lawful as ilst_laws};
ghost use Rattle.mp4_leaf.specs.contracts.hdlr.HdlrBoxExactEq.TheImpl.Laws.{lawful as hdlr_laws};
ghost use Rattle.mp4_codec.specs.contracts.box_type.BoxTypeExactEq.TheImpl.Laws.{lawful as box_type_laws};
ghost use Rattle.mp4_meta.specs.contracts.meta.MetaBox.{enum as meta_boxes};
ghost use Rattle.std.specs.Prelude.{◌≡◌, ◌+◌, ◌-◌, ◌<◌, ◌^◌, min, length, OnOk, Ok};
ghost use Rattle.std.specs.List.{AllByRecursion};
ghost use Rattle.mp4_codec.specs.declared.box_type.BoxType.TheVariants.{HdlrBox as hdlr, MetaBox as meta};
ghost use Rattle.mp4_codec.specs.Cause.{Gives, seen};
ghost use Rattle.mp4_codec.specs.Early.{unless_refused};
ghost use Rattle.mp4_codec.specs.Children.{fault_in, last_of, with_last};
ghost use Rattle.mp4_codec.specs.GatherLaws.{last_child-adds};
ghost use Rattle.mp4_codec.specs.Bytes.{Appends};
ghost use Rattle.mp4_codec.specs.Boxes.{box_bytes, size_around, no_refusal};
ghost use Rattle.mp4_meta.specs.Meta.{names_hdlr, meta_body, mdir_handler, type_in, last_type, last_handler_type};
ghost use Rattle.mp4_meta.specs.Meta.{others_early, meta_early, child_box_bytes, others, others_added, no_fault};
ghost use Rattle.mp4_meta.specs.Meta.{HasCode, meta_of, meta_payload, IsInRangeMeta, IsWellFormedMeta, default_meta};
ghost use Rattle.mp4_meta.specs.MetaLaws.{others_adds, meta_again};

use crate::ilst::IlstBox;
use mp4_codec::{
    BoxType, Child, Error, ExactEq, Fields, FourCC, Gather, HEADER_SIZE, InRange, Items, Mp4Box,
    Put, ReadBox, Result, TryClone, WriteBox, gather_children, last_child, optional_size,
    put_bytes, put_optional, put_u32, put_zeros, required,
};
use mp4_leaf::HdlrBox;
use std::alloc::Global;

/// The handler type of iTunes metadata, `mdir`.
const MDIR: u32 = 0x6d646972;

/// Metadata, `meta` (ISO/IEC 14496-12, 8.11.1).
///
/// Four zero bytes and then the children, or, as QuickTime writes it, the children alone, of which the first is `hdlr`.
/// A payload below four bytes is `InvalidData`, and one of neither form `UnsupportedBoxVersion(MetaBox, v)`, where v is
/// its first byte. The first refused `hdlr` in file order is the next answer, then `InvalidData` for a broken tail,
/// then `BoxNotFound(HdlrBox)`, then, with handler `mdir` alone, the first refused `ilst`.
#[derive(Debug, PartialEq, Eq, Drop)]
pub enum MetaBox {
    /// Metadata of handler `mdir`, as iTunes writes it. It is written with a default `hdlr` of that handler type.
    Mdir {
        /// The items: the last such child.
        ilst: Option<IlstBox>,
    },
    /// Metadata of any other handler.
    Unknown {
        /// The handler: the last such child, which is required.
        hdlr: HdlrBox,
        /// The type and the payload of each other child, in file order. An entry of type `hdlr`, or one whose type is a
        /// named type given as `UnknownBox`, is written, but not read again as it is.
        children: Items<(BoxType, Items<u8>)>,
    },
}

impl ExactEq for MetaBox {
    ghost exact = { exact_enum meta_boxes
        (Prim.search (
          field_tests,
          by_law ilst_laws.exact,
          by_law hdlr_laws.exact,
          list (pair (by_law box_type_laws.exact) (list number)),
        )) };
}

impl MetaBox {
    /// Metadata of a default handler, without other children.
    pub fn default(alloc: Global) -> Result<Self>
        ensures { Gives (λ b. b) result (Ok default_meta) }
    {
        Ok(MetaBox::Unknown {
            hdlr: HdlrBox::default(alloc)?,
            children: Items::new(alloc),
        })
    }

    /// `meta`.
    pub fn get_type(&self) -> BoxType
        ensures { result ≡ meta }
    {
        BoxType::MetaBox
    }

    /// The bytes of the box, its header included; they stop at 2^64 - 1.
    #[tactic(auto, using(crate::proofs::MetaSizes::meta_sizes), unfolding(crate::specs::Meta::meta_payload))]
    pub fn get_size(&self) -> u64
        ensures { result ≡ size_around (meta_payload self.now) }
    {
        match self {
            MetaBox::Mdir { ilst } => 45u64.saturating_add(optional_size(ilst)),
            MetaBox::Unknown { hdlr, children } => 12u64
                .saturating_add(hdlr.box_size())
                .saturating_add(children_size(children)),
        }
    }
}

/// A default handler of handler type `mdir`. It takes no memory.
fn default_mdir(alloc: Global) -> HdlrBox
    ensures { result ≡ mdir_handler }
{
    HdlrBox {
        version: 0,
        flags: 0,
        handler_type: FourCC::from(MDIR),
        name: Items::new(alloc),
    }
}

/// Whether the bytes begin with the type `hdlr`.
fn begins_with_hdlr(bytes: &[u8]) -> bool
    ensures { result ≡ names_hdlr bytes.now }
{
    match Fields::new(bytes).u32() {
        Ok(code) => code == u32::from(BoxType::HdlrBox),
        Err(_) => false,
    }
}

/// The part of a payload that holds the children.
#[tactic(auto, unfolding(crate::specs::Meta::meta_body))]
fn children_of(payload: &[u8]) -> Result<&[u8]>
    ensures { Gives (λ body. body.now) result (meta_body payload.now) }
{
    let mut fields = Fields::new(payload);
    let first = fields.u32()?;
    if first == 0 {
        return Ok(fields.rest());
    }
    if begins_with_hdlr(fields.rest()) {
        return Ok(payload);
    }
    let version = Fields::new(payload).u8()?;
    Err(Error::UnsupportedBoxVersion(BoxType::MetaBox, version))
}

/// The handler type of the last handler among children.
#[derive(Drop)]
struct LastHandler {
    handler_type: Option<FourCC>,
}

impl Gather for LastHandler {
    ghost fault = { fault_in hdlr type_in };

    ghost early = { λ c. unless_refused (fault_in hdlr type_in c) };

    ghost taken = { λ list. record { handler_type = last_of hdlr type_in list } };

    ghost added = { λ p c. seen (λ x. record { handler_type = x }) (with_last hdlr type_in c p.handler_type) };

    ghost adds = { last_child-adds hdlr type_in (λ x. record { handler_type = x }) };

    #[tactic(auto, unfolding(mp4_codec::specs::Children::last_of, mp4_codec::specs::Children::all_of))]
    fn none(_alloc: Global) -> Self {
        LastHandler { handler_type: None }
    }

    fn add(&mut self, _alloc: Global, child: &Child) -> Result<()> {
        if u32::from(child.name) == u32::from(BoxType::HdlrBox) {
            self.handler_type = Some(HdlrBox::handler_type_of(child.payload)?);
            return Ok(());
        }
        Ok(())
    }
}

/// The handler type of the last handler among children: each is looked at, and no memory is requested.
#[tactic(auto, using(crate::proofs::Handlers::handler_types))]
fn last_type(alloc: Global, body: &[u8]) -> Result<Option<FourCC>>
    ensures { Gives (λ t. t) result (last_type body.now) }
{
    let LastHandler { handler_type } = gather_children(alloc, body)?;
    Ok(handler_type)
}

/// The handler type of metadata; `BoxNotFound(HdlrBox)` where it has no handler.
fn handler_type(alloc: Global, body: &[u8]) -> Result<FourCC>
    ensures { Gives (λ t. t) result (last_handler_type body.now) }
{
    match last_type(alloc, body)? {
        None => Err(Error::BoxNotFound(BoxType::HdlrBox)),
        Some(handler_type) => Ok(handler_type),
    }
}

/// The children that are not the handler.
#[derive(Drop)]
struct OtherChildren {
    children: Items<(BoxType, Items<u8>)>,
}

impl Gather for OtherChildren {
    ghost fault = { no_fault };

    ghost early = { others_early };

    ghost taken = { λ list. record { children = others list } };

    ghost added = { others_added };

    ghost adds = { others_adds };

    #[tactic(auto, unfolding(crate::specs::Meta::others))]
    fn none(alloc: Global) -> Self {
        OtherChildren {
            children: Items::new(alloc),
        }
    }

    #[tactic(auto, unfolding(crate::specs::Meta::others_added))]
    fn add(&mut self, alloc: Global, child: &Child) -> Result<()> {
        if u32::from(child.name) == u32::from(BoxType::HdlrBox) {
            return Ok(());
        }
        let payload = Items::from(child.payload.to_vec(alloc)?);
        self.children.push((child.name, payload))?;
        Ok(())
    }
}

/// Says that the code of a child's type has 32 bits.
fn code_in_range(child: &(BoxType, Items<u8>))
    ensures { HasCode child.now }
{
    let _code = u32::from(child.0);
}

/// Says that the codes of the children's types have 32 bits.
fn codes_in_range(children: &Items<(BoxType, Items<u8>)>)
    ensures { AllByRecursion HasCode children.now }
{
    for child in children.as_slice() {
        code_in_range(child);
    }
}

/// The bytes of the box around a payload, its header included.
fn size_as_box(payload: &Items<u8>) -> u64
    ensures { result ≡ size_around payload.now }
{
    (payload.len() as u64).saturating_add(HEADER_SIZE)
}

/// The bytes of the boxes of children; they stop at 2^64 - 1.
fn children_size(children: &Items<(BoxType, Items<u8>)>) -> u64
    ensures { result ≡ min (length (child_box_bytes children.now)) (2 ^ 64 - 1) }
{
    let mut size = 0u64;
    for child in children.as_slice() {
        size = size.saturating_add(size_as_box(&child.1));
    }
    size
}

/// Adds the box of a child.
fn put_child(out: &mut Vec<u8>, name: BoxType, payload: &Items<u8>) -> Put
    requires { 8 + length payload.now < 2 ^ 32 }
    ensures { OnOk result (Appends out.old.items out.new.items (box_bytes name payload.now)) }
{
    put_u32(out, size_as_box(payload) as u32)?;
    put_u32(out, u32::from(name))?;
    put_bytes(out, payload.as_slice())?;
    Ok(())
}

/// Adds the boxes of children, one after the other.
fn put_children(out: &mut Vec<u8>, children: &Items<(BoxType, Items<u8>)>) -> Put
    requires { length (child_box_bytes children.now) < 2 ^ 32 }
    ensures { OnOk result (Appends out.old.items out.new.items (child_box_bytes children.now)) }
{
    for child in children.as_slice() {
        put_child(out, child.0, &child.1)?;
    }
    Ok(())
}

impl TryClone for MetaBox {
    fn try_clone(&self) -> Result<Self> {
        match self {
            MetaBox::Mdir { ilst } => {
                let ilst = ilst.try_clone()?;
                Ok(MetaBox::Mdir { ilst })
            }
            MetaBox::Unknown { hdlr, children } => {
                let hdlr = hdlr.try_clone()?;
                let children = children.try_clone()?;
                Ok(MetaBox::Unknown { hdlr, children })
            }
        }
    }
}

impl InRange for MetaBox {
    ghost IsInRange = { IsInRangeMeta };

    fn in_range(&self) {
        match self {
            MetaBox::Mdir { ilst } => ilst.in_range(),
            MetaBox::Unknown { hdlr, children } => {
                hdlr.in_range();
                codes_in_range(children);
            }
        }
    }
}

impl Mp4Box for MetaBox {
    ghost KIND = { meta };

    const KIND: BoxType = BoxType::MetaBox;

    ghost payload = { meta_payload };

    fn box_size(&self) -> u64 {
        self.get_size()
    }
}

impl ReadBox for MetaBox {
    ghost value = { meta_of };

    ghost early = { meta_early };

    #[tactic(auto, using(crate::proofs::Handlers::handlers), unfolding(crate::specs::Meta::meta_of, crate::specs::Meta::meta_early))]
    fn read_payload(alloc: Global, payload: &[u8]) -> Result<Self> {
        let body = children_of(payload)?;
        if u32::from(handler_type(alloc, body)?) == MDIR {
            let ilst = last_child::<IlstBox>(alloc, body)?;
            return Ok(MetaBox::Mdir { ilst });
        }
        let last = last_child::<HdlrBox>(alloc, body)?;
        let hdlr = required(last)?;
        let OtherChildren { children } = gather_children(alloc, body)?;
        Ok(MetaBox::Unknown { hdlr, children })
    }
}

impl WriteBox for MetaBox {
    ghost refusal = { no_refusal };

    ghost IsWellFormed = { IsWellFormedMeta };

    ghost reads_back = { meta_again };

    fn check(&self) -> Result<()> {
        Ok(())
    }

    #[tactic(auto, using(crate::proofs::MetaSizes::meta_sizes), unfolding(crate::specs::Meta::meta_payload))]
    fn put_payload(&self, out: &mut Vec<u8>) -> Put {
        match self {
            MetaBox::Mdir { ilst } => {
                put_zeros(out, 4)?;
                default_mdir(*out.allocator()).put_box(out)?;
                put_optional(out, ilst)?;
                Ok(())
            }
            MetaBox::Unknown { hdlr, children } => {
                put_zeros(out, 4)?;
                hdlr.put_box(out)?;
                put_children(out, children)?;
                Ok(())
            }
        }
    }
}
