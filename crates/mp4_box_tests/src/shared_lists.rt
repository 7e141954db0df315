//! Lists that their copies share, and the boxes that have such lists. `refused_memory::shared_lists` says what of them
//! takes memory.

use crate::asserts::assert_that;
use mp4_codec::{Items, Result, SharedItem, SharedItems, TryClone};
use mp4_entry::{AvcCBox, NalUnit};
use mp4_moof::{TrafBox, TrunBox};
use mp4_plain_movies::equality::{are_alike, tells_each};
use std::alloc::{AllocError, Global};
use std::fmt::Debug;
use std::process::Abort;
use std::slice;

/// A number that is never copied: there is no memory for a copy of it. So a list of such numbers is copied only where
/// the copy shares them.
#[derive(PartialEq, Drop)]
struct Uncopied {
    number: u32,
}

/// Memory for a copy of such a number.
fn memory_for_a_copy() -> std::result::Result<(), AllocError> {
    Err(AllocError)
}

impl TryClone for Uncopied {
    fn try_clone(&self) -> Result<Self> {
        memory_for_a_copy()?;
        Ok(Uncopied {
            number: self.number,
        })
    }
}

impl SharedItem for Uncopied {
    fn as_one(&self) -> &[Uncopied] {
        slice::from_ref(self)
    }
}

const ONE: Uncopied = Uncopied { number: 1 };

const TWO: Uncopied = Uncopied { number: 2 };

const THREE: Uncopied = Uncopied { number: 3 };

/// A list that copies share.
fn shared<T: SharedItem + Drop>(rt: &impl Abort, items: Items<T>) -> SharedItems<T> {
    SharedItems::from_items(items).expect(rt, "memory")
}

/// A copy of a list.
fn copy_of<T: SharedItem + TryClone>(rt: &impl Abort, list: &SharedItems<T>) -> SharedItems<T> {
    list.try_clone().expect(rt, "a copy")
}

/// A list of one number that is never copied.
fn list_of_one(rt: &impl Abort, alloc: Global) -> SharedItems<Uncopied> {
    let mut items = Items::new(alloc);
    items.push(ONE).expect(rt, "memory");
    shared(rt, items)
}

/// A list of two numbers that are never copied.
fn list_of_two(rt: &impl Abort, alloc: Global) -> SharedItems<Uncopied> {
    let mut items = Items::new(alloc);
    items.push(ONE).expect(rt, "memory");
    items.push(TWO).expect(rt, "memory");
    shared(rt, items)
}

/// Whether copies share the values of a list, and keep them after it is gone.
fn copies_share(rt: &impl Abort, list: SharedItems<Uncopied>, values: &[Uncopied]) -> bool {
    let copy = copy_of(rt, &list);
    let copy_of_copy = copy_of(rt, &copy);
    let are_equal = copy == list && copy_of_copy == list;
    drop(list);
    drop(copy);
    are_equal && copy_of_copy.as_slice() == values
}

/// Whether that holds of a list of one value.
fn one_is_shared(rt: &impl Abort, alloc: Global) -> bool {
    copies_share(rt, list_of_one(rt, alloc), &[ONE])
}

/// Whether that holds of a list of two values.
fn two_are_shared(rt: &impl Abort, alloc: Global) -> bool {
    copies_share(rt, list_of_two(rt, alloc), &[ONE, TWO])
}

/// Copies of these values.
fn items_of(rt: &impl Abort, alloc: Global, values: &[u32]) -> Items<u32> {
    u32::try_clone_all(alloc, values).expect(rt, "memory")
}

/// A list of copies of these values.
fn list_of(rt: &impl Abort, alloc: Global, values: &[u32]) -> SharedItems<u32> {
    shared(rt, items_of(rt, alloc, values))
}

/// Whether a list is equal to its copy, which has no values.
fn copy_is_empty(rt: &impl Abort, list: &SharedItems<u32>) -> bool {
    let copy = copy_of(rt, list);
    copy == *list && copy.is_empty() && copy.len() == 0 && copy.get(0).is_none()
}

/// Whether that holds of lists without values, by `new` and by `from_items`.
fn empty_copies_are_empty(rt: &impl Abort, alloc: Global) -> bool {
    let new = SharedItems::new(alloc);
    let of_none = list_of(rt, alloc, &[]);
    copy_is_empty(rt, &new) && copy_is_empty(rt, &of_none)
}

#[test]
fn a_copy_shares_the_values_of_a_list(rt: HostRuntime) {
    let alloc = rt.alloc();
    assert_that(&rt, "one value", one_is_shared(&rt, alloc));
    assert_that(&rt, "values", two_are_shared(&rt, alloc));
    assert_that(&rt, "no values", empty_copies_are_empty(&rt, alloc));
}

/// Whether a push on a list of two that nobody shares copies no value.
fn unshared_push_copies_none(rt: &impl Abort, alloc: Global) -> bool {
    let mut list = list_of_two(rt, alloc);
    list.push(THREE).expect(rt, "a push that copies no value");
    list.as_slice() == [ONE, TWO, THREE].as_slice()
}

/// Whether a push on a list of one copies its value: where that can't be copied it leaves the list.
fn push_copies_one(rt: &impl Abort, alloc: Global) -> bool {
    let mut list = list_of_one(rt, alloc);
    let is_refused = list.push(TWO).is_err();
    is_refused && list.as_slice() == [ONE].as_slice()
}

/// Whether a push on a shared list copies the values: where they can't be copied it leaves the list, and made again it
/// is Ok once nobody shares the list any more.
fn shared_push_copies_each(rt: &impl Abort, alloc: Global) -> bool {
    let mut list = list_of_two(rt, alloc);
    let copy = copy_of(rt, &list);
    let is_refused = list.push(THREE).is_err();
    let is_left = list == copy && copy.as_slice() == [ONE, TWO].as_slice();
    drop(copy);
    list.push(THREE).expect(rt, "the push again");
    is_refused && is_left && list.as_slice() == [ONE, TWO, THREE].as_slice()
}

/// Whether values that are pushed to a copy are in that copy alone.
fn push_adds_to_one_copy(rt: &impl Abort, alloc: Global, values: &[u32]) -> bool {
    let list = list_of(rt, alloc, values);
    let mut copy = copy_of(rt, &list);
    let other = copy_of(rt, &list);
    copy.push(8).expect(rt, "memory");
    copy.push(9).expect(rt, "memory");
    let is_left = list.as_slice() == values && other == list;
    let is_added = copy.get(values.len()).copied() == Some(8)
        && copy.iter().last().copied() == Some(9);
    is_left && is_added && copy.as_slice().starts_with(values)
}

#[test]
fn a_push_adds_to_one_list_alone(rt: HostRuntime) {
    assert_that(&rt, "unshared", unshared_push_copies_none(&rt, rt.alloc()));
    assert_that(&rt, "one", push_copies_one(&rt, rt.alloc()));
    assert_that(&rt, "shared", shared_push_copies_each(&rt, rt.alloc()));
    assert_that(
        &rt,
        "copy of one",
        push_adds_to_one_copy(&rt, rt.alloc(), &[1]),
    );
    assert_that(
        &rt,
        "copy of two",
        push_adds_to_one_copy(&rt, rt.alloc(), &[1, 2]),
    );
    assert_that(
        &rt,
        "copy of none",
        push_adds_to_one_copy(&rt, rt.alloc(), &[]),
    );
}

/// Whether a list of 7 and 8 gives each of its values.
fn values_are_given(rt: &impl Abort, alloc: Global) -> bool {
    let list = list_of(rt, alloc, &[7, 8]);
    let is_two = list.len() == 2 && !list.is_empty() && list.iter().count() == 2;
    let is_given = list.get(0).copied() == Some(7) && list.get(1).copied() == Some(8);
    let is_ended = list.get(2).is_none() && list.as_slice() == [7, 8].as_slice();
    is_two && is_given && is_ended
}

/// Whether the allocator of a list, and of one without values, serves another list.
fn allocator_serves(rt: &impl Abort, alloc: Global) -> bool {
    let list = list_of(rt, alloc, &[7]);
    let empty: SharedItems<u32> = SharedItems::new(list.allocator());
    let other = list_of(rt, empty.allocator(), &[7]);
    empty.is_empty() && other == list
}

/// How a value is shown on one line.
fn on_a_line(rt: &impl Abort, alloc: Global, value: &impl Debug) -> String {
    format!(in alloc; "{value:?}").expect(rt, "memory")
}

/// How a value is shown on several lines.
fn on_lines(rt: &impl Abort, alloc: Global, value: &impl Debug) -> String {
    format!(in alloc; "{value:#?}").expect(rt, "memory")
}

/// Whether a list is shown as an `Items` of the same values, on one line and on several.
fn is_shown_as_items(rt: &impl Abort, alloc: Global, values: &[u32]) -> bool {
    let items = items_of(rt, alloc, values);
    let list = list_of(rt, alloc, values);
    let is_line = on_a_line(rt, alloc, &list) == on_a_line(rt, alloc, &items);
    is_line && on_lines(rt, alloc, &list) == on_lines(rt, alloc, &items)
}

#[test]
fn a_list_gives_and_shows_its_values(rt: HostRuntime) {
    let alloc = rt.alloc();
    assert_that(&rt, "given", values_are_given(&rt, alloc));
    assert_that(&rt, "allocator", allocator_serves(&rt, alloc));
    assert_that(&rt, "numbers", is_shown_as_items(&rt, alloc, &[7, 8]));
    assert_that(&rt, "one number", is_shown_as_items(&rt, alloc, &[7]));
    assert_that(&rt, "no numbers", is_shown_as_items(&rt, alloc, &[]));
}

/// Whether lists are equal where their values are, shared or not, and unequal where one is another or more.
fn lists_are_told(rt: &impl Abort, alloc: Global) -> bool {
    let list = list_of(rt, alloc, &[1, 2]);
    let alike = list_of(rt, alloc, &[1, 2]);
    let copy = copy_of(rt, &list);
    let others = [
        list_of(rt, alloc, &[1, 3]),
        list_of(rt, alloc, &[1, 2, 3]),
        list_of(rt, alloc, &[1]),
        list_of(rt, alloc, &[]),
    ];
    tells_each(&list, &alike, &others) && are_alike(&list, &copy)
}

#[test]
fn lists_that_differ_in_a_value_are_unequal(rt: HostRuntime) {
    assert_that(&rt, "lists", lists_are_told(&rt, rt.alloc()));
}

/// A track fragment of two track runs.
fn fragment(rt: &impl Abort, alloc: Global) -> TrafBox {
    let mut traf = TrafBox::default(alloc).expect(rt, "memory");
    for count in 1..3u32 {
        let mut run = TrunBox::default(alloc).expect(rt, "memory");
        run.sample_count = count;
        traf.truns.push(run).expect(rt, "memory");
    }
    traf
}

/// Whether a track run that is pushed to the copy of a track fragment is in that copy alone.
fn run_is_added_to_the_copy(rt: &impl Abort, alloc: Global) -> bool {
    let traf = fragment(rt, alloc);
    let mut copy = traf.try_clone().expect(rt, "memory");
    let are_equal = copy == traf;
    let run = TrunBox::default(alloc).expect(rt, "memory");
    copy.truns.push(run).expect(rt, "memory");
    let is_left = traf == fragment(rt, alloc);
    are_equal && is_left && copy != traf && copy.truns.len() == 3
}

/// A parameter set of one byte.
fn set(rt: &impl Abort, alloc: Global, byte: u8) -> NalUnit {
    NalUnit {
        bytes: Items::from(vec![in alloc; byte].expect(rt, "memory")),
    }
}

/// Adds a parameter set of each kind to a configuration.
fn add_sets(rt: &impl Abort, alloc: Global, avcc: &mut AvcCBox, sequence: u8, picture: u8) {
    let set_of_sequence = set(rt, alloc, sequence);
    avcc.sequence_parameter_sets
        .push(set_of_sequence)
        .expect(rt, "memory");
    let set_of_picture = set(rt, alloc, picture);
    avcc.picture_parameter_sets
        .push(set_of_picture)
        .expect(rt, "memory");
}

/// A configuration of one parameter set of each kind.
fn configuration(rt: &impl Abort, alloc: Global) -> AvcCBox {
    let mut avcc = AvcCBox::default(alloc).expect(rt, "memory");
    add_sets(rt, alloc, &mut avcc, 1, 2);
    avcc
}

/// Whether parameter sets that are pushed to the copy of a configuration are in that copy alone.
fn sets_are_added_to_the_copy(rt: &impl Abort, alloc: Global) -> bool {
    let avcc = configuration(rt, alloc);
    let mut copy = avcc.try_clone().expect(rt, "memory");
    let are_equal = copy == avcc;
    add_sets(rt, alloc, &mut copy, 3, 4);
    let is_left = avcc == configuration(rt, alloc);
    let is_added = copy.sequence_parameter_sets.len() == 2
        && copy.picture_parameter_sets.len() == 2;
    are_equal && is_left && copy != avcc && is_added
}

#[test]
fn a_push_to_a_copied_box_leaves_the_original(rt: HostRuntime) {
    assert_that(&rt, "traf", run_is_added_to_the_copy(&rt, rt.alloc()));
    assert_that(&rt, "avcC", sets_are_added_to_the_copy(&rt, rt.alloc()));
}
