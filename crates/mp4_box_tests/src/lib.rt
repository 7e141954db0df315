//! What no case of `mp4_vectors` can say of boxes: values that no bytes give, writes that are refused, what boxes are
//! made with, lists that copies share, and tables of a million entries. What a contract says isn't tested again.
#![tactic(auto)]

#[cfg(test)]
mod asserts;
#[cfg(test)]
mod equality;
#[cfg(test)]
mod large_tables;
#[cfg(test)]
mod laws;
#[cfg(test)]
mod parts;
#[cfg(test)]
mod refused_writes;
#[cfg(test)]
mod shared_lists;
#[cfg(test)]
mod types;
#[cfg(test)]
mod unread_values;
