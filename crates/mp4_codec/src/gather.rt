//! What the children of a payload give.

ghost use Rattle.std.specs.Prelude.{◌≡◌, ◌++◌, ◌∷◌, [], List, Option, Result, Ok};
ghost use Rattle.mp4_codec.specs.BoxType.{IsNamed};
ghost use Rattle.mp4_codec.specs.Cause.{Cause, Answers, Gives, unless, seen};
ghost use Rattle.mp4_codec.specs.Children.{ChildBox, child_box, children, gathered, fault_in, last_of, all_of};
ghost use Rattle.mp4_codec.specs.Children.{with_last, with_next, needed, some_needed};
ghost use Rattle.mp4_codec.specs.Early.{Early, Shows, early_last, early_next, early_gathered};
ghost use Rattle.mp4_codec.specs.GatherLaws.{last_child-adds, all_children-adds};

use crate::boxes::{Mp4Box, ReadBox};
use crate::children::{Child, Children};
use crate::error::{Error, Result};
use crate::items::Items;
use std::alloc::Global;

/// The parts of a container, which its children give.
///
/// `taken` says which parts a list of children gives, in words such as the last of a type; `fault` says
/// why a child is refused, and `early` what it shows before memory is requested.
pub trait Gather: Sized + Drop {
    ghost fault: { ChildBox → Option Cause };

    ghost early: { ChildBox → Early };

    ghost taken: { List ChildBox → Self };

    ghost added: { Self → ChildBox → Result Self Cause };

    /// The parts before any child.
    fn none(alloc: Global) -> Self
        ensures { result ≡ taken [] };

    /// Adds what one child gives.
    fn add(&mut self, alloc: Global, child: &Child) -> Result<()>
        requires { IsNamed child.now.name }
        ensures value { Answers (λ _. self.new) result (added self.old (child_box child.now)) }
        ensures early { Shows (early (child_box child.now)) result };

    ghost adds: { (done : List ChildBox) (c : ChildBox)
        → added (taken done) c ≡ unless (fault c) (Ok (taken (done ++ c ∷ []))) };
}

/// The parts that the children of a payload give: the first refused child in file order is the answer,
/// then a tail that no child begins; else it is what all children give.
pub fn gather_children<G: Gather>(alloc: Global, payload: &[u8]) -> Result<G>
    ensures value { Answers (λ g. g) result (gathered G.fault G.taken (children payload.now)) }
    ensures early { Shows (early_gathered G.early (children payload.now)) result }
{
    let mut parts = G::none(alloc);
    let mut children = Children::new(payload);
    while let Some(child) = children.next_child()? {
        parts.add(alloc, &child)?;
    }
    Ok(parts)
}

/// Reads a child into the place of the last one of its type; a child of another type leaves it.
pub fn keep_last<B: Mp4Box + ReadBox>(
    alloc: Global,
    child: &Child,
    last: &mut Option<B>,
) -> Result<()>
    ensures value { Answers (λ _. last.new) result (with_last B.KIND B.value (child_box child.now) last.old) }
    ensures early { Shows (early_last B.KIND B.early (child_box child.now)) result }
{
    if u32::from(child.name) == u32::from(B::KIND) {
        *last = Some(B::read_payload(alloc, child.payload)?);
        return Ok(());
    }
    Ok(())
}

/// Reads a child after those of its type; a child of another type leaves them.
pub fn keep_each<B: Mp4Box + ReadBox>(
    alloc: Global,
    child: &Child,
    all: &mut Items<B>,
) -> Result<()>
    ensures value { Answers (λ _. all.new) result (with_next B.KIND B.value (child_box child.now) all.old) }
    ensures early { Shows (early_next B.KIND B.early (child_box child.now)) result }
{
    if u32::from(child.name) == u32::from(B::KIND) {
        all.push(B::read_payload(alloc, child.payload)?)?;
        return Ok(());
    }
    Ok(())
}

/// A child that has to be there; `BoxNotFound` where it is missing.
pub fn required<B: Mp4Box>(child: Option<B>) -> Result<B>
    ensures { Gives (λ b. b) result (needed B.KIND child) }
{
    match child {
        None => Err(Error::BoxNotFound(B::KIND)),
        Some(b) => Ok(b),
    }
}

/// Children of which at least one has to be there; `BoxNotFound` where all are missing.
pub fn some_required<B: Mp4Box + Drop>(children: Items<B>) -> Result<Items<B>>
    ensures { Gives (λ bs. bs) result (some_needed B.KIND children) }
{
    if children.is_empty() {
        return Err(Error::BoxNotFound(B::KIND));
    }
    Ok(children)
}

/// The last child of one type.
#[derive(Drop)]
struct LastChild<B> {
    child: Option<B>,
}

impl<B: Mp4Box + ReadBox> Gather for LastChild<B> {
    ghost fault = { fault_in B.KIND B.value };

    ghost early = { early_last B.KIND B.early };

    ghost taken = { λ list. record { child = last_of B.KIND B.value list } };

    ghost added = { λ p c. seen (λ x. record { child = x }) (with_last B.KIND B.value c p.child) };

    ghost adds = { last_child-adds B.KIND B.value (λ x. record { child = x }) };

    #[tactic(auto, unfolding(crate::specs::Children::last_of, crate::specs::Children::all_of))]
    fn none(_alloc: Global) -> Self {
        LastChild { child: None }
    }

    fn add(&mut self, alloc: Global, child: &Child) -> Result<()> {
        keep_last(alloc, child, &mut self.child)?;
        Ok(())
    }
}

/// The last child of this type, and None where there is none. Other types are skipped; a child of the
/// type that is refused refuses the payload, also where a later one would be.
pub fn last_child<B: Mp4Box + ReadBox>(alloc: Global, payload: &[u8]) -> Result<Option<B>>
    ensures value { Answers (λ b. b) result
        (gathered (fault_in B.KIND B.value) (last_of B.KIND B.value) (children payload.now)) }
    ensures early { Shows (early_gathered (early_last B.KIND B.early) (children payload.now)) result }
{
    let LastChild { child } = gather_children::<LastChild<B>>(alloc, payload)?;
    Ok(child)
}

/// All children of one type.
#[derive(Drop)]
struct AllChildren<B> {
    children: Items<B>,
}

impl<B: Mp4Box + ReadBox> Gather for AllChildren<B> {
    ghost fault = { fault_in B.KIND B.value };

    ghost early = { early_next B.KIND B.early };

    ghost taken = { λ list. record { children = all_of B.KIND B.value list } };

    ghost added = { λ p c. seen (λ x. record { children = x }) (with_next B.KIND B.value c p.children) };

    ghost adds = { all_children-adds B.KIND B.value (λ x. record { children = x }) };

    #[tactic(auto, unfolding(crate::specs::Children::all_of))]
    fn none(alloc: Global) -> Self {
        AllChildren {
            children: Items::new(alloc),
        }
    }

    fn add(&mut self, alloc: Global, child: &Child) -> Result<()> {
        keep_each(alloc, child, &mut self.children)?;
        Ok(())
    }
}

/// All children of this type, in order. Other types are skipped; the first that is refused refuses the
/// payload.
pub fn all_children<B: Mp4Box + ReadBox>(alloc: Global, payload: &[u8]) -> Result<Items<B>>
    ensures value { Answers (λ bs. bs) result
        (gathered (fault_in B.KIND B.value) (all_of B.KIND B.value) (children payload.now)) }
    ensures early { Shows (early_gathered (early_next B.KIND B.early) (children payload.now)) result }
{
    let AllChildren { children } = gather_children::<AllChildren<B>>(alloc, payload)?;
    Ok(children)
}
