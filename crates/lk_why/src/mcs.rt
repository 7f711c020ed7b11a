//! The changes of the MCS lock, in the order of its code.

use crate::{Change, Found, How, PhaseName, Written};

pub static CHANGES: [Change; 15] = changes! {
    ClearNext: How::LeaveOut(Written::All);
    // the write then clears what a successor may have linked
    ClearNext: How::Exchange;
    SwapTail: How::LeaveOut(Written::All);
    SwapTail: How::Split;
    SetLocked: How::LeaveOut(Written::All);
    SetLocked: How::Exchange;
    LinkTo: How::LeaveOut(Written::All);
    AwaitGrant: How::Find(Found::Zero);
    ReadNext: How::Find(Found::Zero);
    CasTail: How::LeaveOut(Written::All);
    CasTail: How::Split;
    // it succeeds: a store that does not compare
    CasTail: How::Find(Found::Own);
    // it fails
    CasTail: How::Find(Found::Zero);
    AwaitLink: How::Return;
    Grant: How::LeaveOut(Written::All);
};
