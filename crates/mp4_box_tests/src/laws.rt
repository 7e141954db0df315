//! Laws: functions that do nothing, whose contracts say what holds.

use mp4_boxes::read_tables_have_first_samples;
use mp4_codec::{
    box_has_its_header, code_again, header_says_its_box, insertion_changes_one_key,
    payload_has_its_children, refused_head_says_why, what_is_written_reads_back,
};
use mp4_meta::{MetadataKey, equal_keys_hash_alike};
use mp4_plain_movies::sample_boxes::Number;
use mp4_plain_movies::sides::Side;
use mp4_table::{
    entries_are_no_fewer_than_changes, entries_have_first_samples, runs_are_no_fewer_than_changes,
};

#[test]
fn a_law_can_be_called(rt: HostRuntime) {
    box_has_its_header();
    header_says_its_box();
    refused_head_says_why();
    payload_has_its_children(&[0, 0, 0, 8, b'f', b'r', b'e', b'e']);
    what_is_written_reads_back(&Number { value: 2 });
    insertion_changes_one_key::<Side, u32>();
    runs_are_no_fewer_than_changes();
    entries_are_no_fewer_than_changes();
    entries_have_first_samples();
    assert_eq!(rt; code_again(0x66726565), 0x66726565);
}

#[test]
fn a_law_of_containers_can_be_called(_rt: HostRuntime) {
    equal_keys_hash_alike::<MetadataKey>();
    read_tables_have_first_samples();
}
