//! What boxes are made with: the fields of a payload, the entries of a list, the children of a container, and the
//! bytes at the end of a buffer.

pub use mp4_codec::{
    Block, Entry, Fields, Gather, InRange, Key, Put, all_children, all_size, check_all,
    check_optional, check_value, check_version, gather_children, keep_each, keep_last, last_child,
    list_size, optional_size, put_all, put_bytes, put_four_cc, put_i16, put_i32, put_list,
    put_optional, put_u8, put_u16, put_u24, put_u32, put_u64, put_versioned, put_zeros,
    read_blocks, required, some_required,
};
pub use mp4_leaf::check_language;
