//! The list of metadata items.

ghost use Rattle.mp4_codec.specs.ExactTest.{by_law, by_test, field_tests};
ghost use Rattle.mp4_leaf.specs.contracts.data.DataBoxExactEq.TheImpl.Laws.{lawful as data_laws};
ghost use Rattle.std.specs.Prelude.{◌≡◌, [], ◌∷◌, ◌+◌, ◌-◌, ◌<◌, ◌^◌, min, length, OnOk, Ok, None, IfSome};
ghost use Rattle.std.specs.Option.{option_copied};
ghost use Rattle.mp4_codec.specs.declared.box_type.BoxType.TheVariants.{IlstBox as ilst};
ghost use Rattle.mp4_codec.specs.Cause.{Answers, Gives};
ghost use Rattle.mp4_codec.specs.Early.{Shows, early_last};
ghost use Rattle.mp4_codec.specs.Bytes.{Appends};
ghost use Rattle.mp4_codec.specs.Boxes.{box_bytes, size_around, no_refusal};
ghost use Rattle.mp4_codec.specs.Children.{child_box, with_last};
ghost use Rattle.mp4_codec.specs.KeyedItems.{no_items};
ghost use Rattle.mp4_meta.specs.Ilst.{item_type, item_of, item_early, item_payload, default_item, item_at};
ghost use Rattle.mp4_meta.specs.Ilst.{item_box_bytes, items_with, IsInRangeItem, ilst_fault, ilst_child_early};
ghost use Rattle.mp4_meta.specs.Ilst.{ilst_taken, ilst_added, ilst_of, ilst_early, ilst_payload, IsInRangeIlst};
ghost use Rattle.mp4_meta.specs.Ilst.{IsWellFormedIlst, default_ilst};
ghost use Rattle.mp4_meta.specs.IlstLaws.{ilst_adds, ilst_again};

use crate::metadata_key::MetadataKey;
use mp4_codec::{
    BoxType, Child, ExactEq, Gather, HEADER_SIZE, InRange, KeyedItems, Mp4Box, Put, ReadBox,
    Result, TryClone, WriteBox, gather_children, last_child, put_u32, required,
};
use mp4_leaf::DataBox;
use std::alloc::Global;

/// An item of metadata, as iTunes writes it: a box of the type that says what it is about, around a `data` box.
///
/// Children of other types are skipped. The first refused `data` box in file order is the answer of reading one, then
/// `InvalidData` for a broken tail, then `BoxNotFound(DataBox)`.
#[derive(Debug, PartialEq, Eq, Drop)]
pub struct IlstItemBox {
    /// The value: the last such child, which is required.
    pub item: DataBox,
}

impl ExactEq for IlstItemBox {
    ghost exact = { by_test (Prim.hlevel (field_tests, by_law data_laws.exact)) };
}

impl IlstItemBox {
    /// An item of a default value.
    pub fn default(alloc: Global) -> Result<Self>
        ensures { Gives (λ b. b) result (Ok default_item) }
    {
        Ok(IlstItemBox {
            item: DataBox::default(alloc)?,
        })
    }
}

impl TryClone for IlstItemBox {
    fn try_clone(&self) -> Result<Self> {
        Ok(IlstItemBox {
            item: self.item.try_clone()?,
        })
    }
}

impl InRange for IlstItemBox {
    ghost IsInRange = { IsInRangeItem };

    fn in_range(&self) {
        self.item.in_range();
    }
}

impl ReadBox for IlstItemBox {
    ghost value = { item_of };

    ghost early = { item_early };

    #[tactic(auto, unfolding(crate::specs::Ilst::item_of, crate::specs::Ilst::item_early))]
    fn read_payload(alloc: Global, payload: &[u8]) -> Result<Self> {
        let last = last_child::<DataBox>(alloc, payload)?;
        let item = required(last)?;
        Ok(IlstItemBox { item })
    }
}

/// The type of the items of a key.
fn type_of(key: MetadataKey) -> BoxType
    ensures { result ≡ item_type key }
{
    match key {
        MetadataKey::Title => BoxType::NameBox,
        MetadataKey::Year => BoxType::DayBox,
        MetadataKey::Poster => BoxType::CovrBox,
        MetadataKey::Summary => BoxType::DescBox,
    }
}

/// Reads a child into the place of the last item of its key; a child of another type leaves it.
fn keep_item(
    alloc: Global,
    child: &Child,
    key: MetadataKey,
    last: &mut Option<IlstItemBox>,
) -> Result<()>
    ensures value { Answers (λ _. last.new) result (with_last (item_type key) item_of (child_box child.now) last.old) }
    ensures early { Shows (early_last (item_type key) item_early (child_box child.now)) result }
{
    if u32::from(child.name) == u32::from(type_of(key)) {
        *last = Some(IlstItemBox::read_payload(alloc, child.payload)?);
        return Ok(());
    }
    Ok(())
}

/// The item of a key.
pub(crate) fn item_of_key(
    items: &KeyedItems<MetadataKey, IlstItemBox>,
    key: MetadataKey,
) -> Option<&IlstItemBox>
    ensures { option_copied result ≡ item_at key items.now }
{
    let _keys = items.len();
    items.get(key)
}

/// Says that each number of the item of a key is within its type.
fn item_in_range(items: &KeyedItems<MetadataKey, IlstItemBox>, key: MetadataKey)
    ensures { IfSome (item_at key items.now) IsInRangeItem }
{
    if let Some(item) = item_of_key(items, key) {
        item.in_range();
    }
}

/// The bytes of the box of an item, its header included; they stop at 2^64 - 1.
#[tactic(auto, using(crate::proofs::Sizes::sizes), unfolding(crate::specs::Ilst::item_payload))]
fn boxed_size(item: &IlstItemBox) -> u64
    ensures { result ≡ size_around (item_payload item.now) }
{
    HEADER_SIZE.saturating_add(item.item.box_size())
}

/// Adds the box of an item.
#[tactic(auto, using(crate::proofs::Sizes::sizes), unfolding(mp4_codec::specs::Boxes::box_bytes, crate::specs::Ilst::item_payload))]
fn put_boxed(out: &mut Vec<u8>, name: BoxType, item: &IlstItemBox) -> Put
    requires { 8 + length (item_payload item.now) < 2 ^ 32 }
    ensures { OnOk result (Appends out.old.items out.new.items (box_bytes name (item_payload item.now))) }
{
    put_u32(out, boxed_size(item) as u32)?;
    put_u32(out, u32::from(name))?;
    item.item.put_box(out)?;
    Ok(())
}

/// The bytes of the box of a key's item, 0 where there is none; they stop at 2^64 - 1.
#[tactic(auto, using(crate::proofs::Sizes::sizes))]
fn item_size(items: &KeyedItems<MetadataKey, IlstItemBox>, key: MetadataKey) -> u64
    ensures { result ≡ min (length (item_box_bytes key items.now)) (2 ^ 64 - 1) }
{
    match item_of_key(items, key) {
        None => 0,
        Some(item) => boxed_size(item),
    }
}

/// Adds the box of a key's item, where there is one.
#[tactic(auto, using(crate::proofs::Sizes::sizes, mp4_codec::specs::PutLaws::nothing_added))]
fn put_item(
    out: &mut Vec<u8>,
    items: &KeyedItems<MetadataKey, IlstItemBox>,
    key: MetadataKey,
) -> Put
    requires { length (item_box_bytes key items.now) < 2 ^ 32 }
    ensures { OnOk result (Appends out.old.items out.new.items (item_box_bytes key items.now)) }
{
    match item_of_key(items, key) {
        None => Ok(()),
        Some(item) => {
            put_boxed(out, type_of(key), item)?;
            Ok(())
        }
    }
}

/// The map with an item at a key that held none, or as it is where there is no item.
fn with_key(
    items: KeyedItems<MetadataKey, IlstItemBox>,
    key: MetadataKey,
    item: Option<IlstItemBox>,
) -> Result<KeyedItems<MetadataKey, IlstItemBox>>
    requires { item_at key items ≡ None }
    ensures { Answers (λ m. m) result (Ok (items_with key item items)) }
{
    let _keys = items.len();
    let mut items = items;
    match item {
        None => Ok(items),
        Some(item) => {
            items.insert(key, item)?;
            Ok(items)
        }
    }
}

/// Metadata as iTunes writes it, `ilst`: a list of items, of which a title, a year, a poster and a summary are read.
///
/// Its children may come in any order, and types that it doesn't name are skipped. The first refused item in file
/// order is the answer of reading one, then `InvalidData` for a broken tail.
#[derive(Debug, PartialEq, Eq, Drop)]
pub struct IlstBox {
    /// At each key the last item of its type. They are written in the order Title, Year, Poster, Summary.
    pub items: KeyedItems<MetadataKey, IlstItemBox>,
}

impl ExactEq for IlstBox {
    ghost exact = { by_test (Prim.hlevel (field_tests, by_law data_laws.exact)) };
}

impl IlstBox {
    /// No items.
    pub fn default(alloc: Global) -> Result<Self>
        ensures { Gives (λ b. b) result (Ok default_ilst) }
    {
        Ok(IlstBox {
            items: KeyedItems::new(alloc),
        })
    }

    /// `ilst`.
    pub fn get_type(&self) -> BoxType
        ensures { result ≡ ilst }
    {
        BoxType::IlstBox
    }

    /// The bytes of the box, its header included; they stop at 2^64 - 1.
    #[tactic(auto, using(crate::proofs::Sizes::sizes), unfolding(crate::specs::Ilst::ilst_payload))]
    pub fn get_size(&self) -> u64
        ensures { result ≡ size_around (ilst_payload self.now) }
    {
        HEADER_SIZE
            .saturating_add(item_size(&self.items, MetadataKey::Title))
            .saturating_add(item_size(&self.items, MetadataKey::Year))
            .saturating_add(item_size(&self.items, MetadataKey::Poster))
            .saturating_add(item_size(&self.items, MetadataKey::Summary))
    }
}

impl TryClone for IlstBox {
    fn try_clone(&self) -> Result<Self> {
        Ok(IlstBox {
            items: self.items.try_clone()?,
        })
    }
}

/// What the children of a list of items give.
#[derive(Drop)]
struct IlstParts {
    title: Option<IlstItemBox>,
    year: Option<IlstItemBox>,
    poster: Option<IlstItemBox>,
    summary: Option<IlstItemBox>,
}

impl IlstParts {
    /// The map of the items that are there.
    #[tactic(auto, unfolding(crate::specs::Ilst::item_at, crate::specs::Ilst::items_with))]
    fn items(self, alloc: Global) -> Result<KeyedItems<MetadataKey, IlstItemBox>>
        ensures { Answers (λ items. items) result (Ok (self.title ∷ self.year ∷ self.poster ∷ self.summary ∷ [])) }
    {
        let IlstParts {
            title,
            year,
            poster,
            summary,
        } = self;
        let items = KeyedItems::new(alloc);
        let items = with_key(items, MetadataKey::Title, title)?;
        let items = with_key(items, MetadataKey::Year, year)?;
        let items = with_key(items, MetadataKey::Poster, poster)?;
        let items = with_key(items, MetadataKey::Summary, summary)?;
        Ok(items)
    }
}

impl Gather for IlstParts {
    ghost fault = { ilst_fault };

    ghost early = { ilst_child_early };

    ghost taken = { ilst_taken };

    ghost added = { ilst_added };

    ghost adds = { ilst_adds };

    #[tactic(auto, unfolding(crate::specs::Ilst::ilst_taken, mp4_codec::specs::Children::last_of, mp4_codec::specs::Children::all_of))]
    fn none(_alloc: Global) -> Self {
        IlstParts {
            title: None,
            year: None,
            poster: None,
            summary: None,
        }
    }

    #[tactic(auto, unfolding(crate::specs::Ilst::ilst_added, crate::specs::Ilst::ilst_child_early))]
    fn add(&mut self, alloc: Global, child: &Child) -> Result<()> {
        keep_item(alloc, child, MetadataKey::Title, &mut self.title)?;
        keep_item(alloc, child, MetadataKey::Year, &mut self.year)?;
        keep_item(alloc, child, MetadataKey::Poster, &mut self.poster)?;
        keep_item(alloc, child, MetadataKey::Summary, &mut self.summary)?;
        Ok(())
    }
}

impl InRange for IlstBox {
    ghost IsInRange = { IsInRangeIlst };

    fn in_range(&self) {
        let _keys = self.items.len();
        item_in_range(&self.items, MetadataKey::Title);
        item_in_range(&self.items, MetadataKey::Year);
        item_in_range(&self.items, MetadataKey::Poster);
        item_in_range(&self.items, MetadataKey::Summary);
    }
}

impl Mp4Box for IlstBox {
    ghost KIND = { ilst };

    const KIND: BoxType = BoxType::IlstBox;

    ghost payload = { ilst_payload };

    fn box_size(&self) -> u64 {
        self.get_size()
    }
}

impl ReadBox for IlstBox {
    ghost value = { ilst_of };

    ghost early = { ilst_early };

    #[tactic(auto, unfolding(crate::specs::Ilst::ilst_of, crate::specs::Ilst::ilst_early))]
    fn read_payload(alloc: Global, payload: &[u8]) -> Result<Self> {
        let parts = gather_children::<IlstParts>(alloc, payload)?;
        let items = parts.items(alloc)?;
        Ok(IlstBox { items })
    }
}

impl WriteBox for IlstBox {
    ghost refusal = { no_refusal };

    ghost IsWellFormed = { IsWellFormedIlst };

    ghost reads_back = { ilst_again };

    fn check(&self) -> Result<()> {
        Ok(())
    }

    #[tactic(auto, using(crate::proofs::Sizes::sizes), unfolding(crate::specs::Ilst::ilst_payload))]
    fn put_payload(&self, out: &mut Vec<u8>) -> Put {
        put_item(out, &self.items, MetadataKey::Title)?;
        put_item(out, &self.items, MetadataKey::Year)?;
        put_item(out, &self.items, MetadataKey::Poster)?;
        put_item(out, &self.items, MetadataKey::Summary)?;
        Ok(())
    }
}
