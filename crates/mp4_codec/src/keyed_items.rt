//! Values at keys, which contracts see as what is held at each key.

ghost use Rattle.std.specs.Prelude.{◌≡◌, ◌==◌, true, List, length, Ok, OnOk, OnErr, Option};
ghost use Rattle.std.specs.Cmp.Lexicographic.{pointwise, lists_per, lists_equiv, options_equiv};
ghost use Rattle.std.specs.List.{count_by};
ghost use Rattle.std.specs.Option.{is_some, option_copied, option_eq};
ghost use Rattle.std.specs.Set.{is_member, distinct_count};
ghost use Rattle.mp4_codec.specs.Cause.{Answers};
ghost use Rattle.mp4_codec.specs.KeyedItemLaws.{options_per};
ghost use Rattle.mp4_codec.specs.KeyedItems.{held_in, held_at, no_items, with_item};

use crate::error::Result;
use crate::try_clone::TryClone;
use std::alloc::{AllocError, Global};
use std::collections::HashMap;
use std::default::Emptied;
use std::fmt;
use std::fmt::Debug;
use std::hash::Hash;
use std::marker::Model;

/// A type of keys with so few values that all of them are listed.
pub trait Key: Copy + Eq + Hash + 'static {
    ghost all: { List Self };

    /// Each key once, in the order in which contracts list what is held.
    fn all() -> &'static [Self]
        ensures { result.now ≡ all };

    ghost is_listed: { (key : Self) → is_member Self.eq all key ≡ true };

    ghost listed_once: { distinct_count Self.eq all ≡ length all };
}

/// A map from keys to values, which contracts see as the list of what it holds at each key.
/// It is made from a `HashMap` and gives it back.
#[derive(Drop)]
pub struct KeyedItems<K: Key, V> {
    items: HashMap<K, V>,
}

impl<K: Key, V> Model for KeyedItems<K, V> {
    ghost Value = { List (Option V) };

    ghost view = { λ s. held_in K.eq K.all s.items };
}

impl<K: Key, V> KeyedItems<K, V> {
    /// A map that holds nothing yet. It takes no memory.
    pub fn new(alloc: Global) -> Self
        ensures { result ≡ no_items K.all }
    {
        KeyedItems {
            items: HashMap::new(alloc),
        }
    }

    /// How many keys have a value.
    pub fn len(&self) -> usize
        ensures value { result ≡ count_by is_some self.now }
        ensures each { length self.now ≡ length K.all }
    {
        self.items.len()
    }

    /// Whether no key has a value.
    pub fn is_empty(&self) -> bool
        ensures { result ≡ (count_by is_some self.now == 0) }
    {
        self.len() == 0
    }

    /// The value at the key.
    pub fn get(&self, key: K) -> Option<&V>
        ensures { option_copied result ≡ held_at K.eq K.all self.now key }
    {
        self.items.get(&key)
    }

    /// Holds the value at the key, and drops the one that was held there. Where memory runs out the value itself is
    /// dropped.
    pub fn insert(&mut self, key: K, value: V) -> std::result::Result<(), AllocError>
    where
        V: Drop,
        ensures ok { OnOk result (self.new ≡ with_item K.eq K.all self.old key value) }
        ensures err { OnErr result (self.new ≡ self.old) }
    {
        self.items.insert(key, value)?;
        Ok(())
    }
}

impl<K: Key, V> From<HashMap<K, V>> for KeyedItems<K, V> {
    ghost from_gives = { λ m s. s ≡ held_in K.eq K.all m };

    fn from(items: HashMap<K, V>) -> Self {
        KeyedItems { items }
    }
}

impl<K: Key, V> From<KeyedItems<K, V>> for HashMap<K, V> {
    ghost from_gives = { λ s m. held_in K.eq K.all m ≡ s };

    fn from(s: KeyedItems<K, V>) -> Self {
        let KeyedItems { items } = s;
        items
    }
}

impl<K: Key, V: PartialEq> PartialEq for KeyedItems<K, V> {
    ghost eq = { pointwise (option_eq V.eq) };

    ghost laws = { lists_per (options_per V.laws) };

    fn eq(&self, other: &Self) -> bool {
        self.items == other.items
    }
}

impl<K: Key, V: Eq> Eq for KeyedItems<K, V> {
    ghost laws = { lists_equiv (options_equiv V.Eq.laws) };
}

impl<K: Key + Debug, V: Debug> Debug for KeyedItems<K, V> {
    /// Writes a map of the keys that have a value, in the order of `Key::all`.
    fn fmt<W: fmt::Write>(&self, f: &mut fmt::Formatter<W>) -> fmt::Result {
        let mut map = f.debug_map();
        for key in K::all() {
            if let Some(value) = self.items.get(key) {
                map.entry(key, value);
            }
        }
        map.finish()
    }
}

impl<K: Key, V: TryClone> TryClone for KeyedItems<K, V> {
    fn try_clone(&self) -> Result<KeyedItems<K, V>> {
        Ok(KeyedItems {
            items: copies_of(&self.items)?,
        })
    }
}

/// A map with a copy of each value, at the key where it was.
fn copies_of<K: Key, V: TryClone>(items: &HashMap<K, V>) -> Result<HashMap<K, V>>
    ensures { Answers (held_in K.eq K.all) result (Ok (held_in K.eq K.all items.now)) }
{
    let mut copies = HashMap::emptied(items)?;
    for key in K::all() {
        if let Some(value) = items.get(key) {
            copies.insert(*key, value.try_clone()?)?;
        }
    }
    Ok(copies)
}
