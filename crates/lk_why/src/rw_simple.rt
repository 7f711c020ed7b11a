//! The changes of the simple read-write lock, in the order of its code.

use crate::{Change, Found, How, PhaseName, Written};

pub static CHANGES: [Change; 9] = changes! {
    TryRead: How::Find(Found::ClearFlag);
    TryRead: How::LeaveOut(Written::All);
    LeaveRead: How::LeaveOut(Written::All);
    TryWrite: How::Find(Found::ClearFlag);
    TryWrite: How::Find(Found::NoReader);
    TryWrite: How::LeaveOut(Written::All);
    LeaveWrite: How::LeaveOut(Written::All);
    TryDowngrade: How::LeaveOut(Written::Counts);
    TryDowngrade: How::LeaveOut(Written::Flag);
};
