//! The framing of boxes in MP4 files (ISO/IEC 14496-12): errors, the cursor, headers, children, the traits
//! of a box, and what boxes are made with.
#![tactic(auto)]

mod block;
mod box_type;
mod boxes;
mod check;
mod child_boxes;
mod children;
mod cursor;
mod entry;
mod error;
mod exact_eq;
mod fields;
mod fixed_point;
mod four_cc;
mod gather;
mod header;
mod in_range;
mod items;
mod keyed_items;
mod laws;
mod put;
mod shared_items;
mod shared_values;
mod text;
mod try_clone;

pub use block::{Block, read_blocks};
pub use box_type::{BoxType, code_again};
pub use boxes::{Mp4Box, ReadBox, WriteBox};
pub use check::{check_value, check_version};
pub use child_boxes::{all_size, check_all, check_optional, optional_size, put_all, put_optional};
pub use children::{Child, Children};
pub use cursor::ByteCursor;
pub use entry::{Entry, list_size, put_list};
pub use error::{Error, Field, Limit, Malformed, Result};
pub use exact_eq::{ExactEq, is_equal};
pub use fields::Fields;
pub use fixed_point::{FixedPointI8, FixedPointU8, FixedPointU16};
pub use four_cc::FourCC;
pub use gather::{
    Gather, all_children, gather_children, keep_each, keep_last, last_child, required,
    some_required,
};
pub use header::{BoxHeader, HEADER_EXT_SIZE, HEADER_SIZE, OPEN_END};
pub use in_range::InRange;
pub use items::{DebugItem, Items};
pub use keyed_items::{Key, KeyedItems};
pub use laws::{
    box_has_its_header, header_says_its_box, insertion_changes_one_key, payload_has_its_children,
    refused_head_says_why, what_is_written_reads_back,
};
pub use put::{
    Put, put_bytes, put_four_cc, put_i16, put_i32, put_u8, put_u16, put_u24, put_u32, put_u64,
    put_versioned, put_zeros,
};
pub use shared_items::{SharedItem, SharedItems};
pub use text::Text;
pub use try_clone::{Plain, TryClone, four_copies};
